//! Host calls on the mailbox of the script that asks.

ghost use Rattle.std.specs.Prelude.{◌≡◌, ◌≤◌, ℕ, List, not, true, pos, IfOk};
ghost use Rattle.std.specs.Ordering.{int_eq};
ghost use Rattle.lsl_value.specs.declared.names.BuiltinId.{BuiltinId as Id};
ghost use Rattle.lsl_value.specs.declared.names.BuiltinId.TheVariants as ids;
ghost use Rattle.lsl_code.specs.Kinded.{Answers};
ghost use Rattle.lsl_code.specs.declared.woven_units.Woven.{Woven as Code};
ghost use Rattle.lsl_post.specs.Listens.{closed, controlled};
ghost use Rattle.lsl_post.specs.Timing.{latest_clock, timing_set};
ghost use Rattle.lsl_script.specs.Awake.{IsAwake};
ghost use Rattle.lsl_script.specs.Lives.{Waits};
ghost use Rattle.lsl_script.specs.Mailing.{listening, ticking};
ghost use Rattle.lsl_script.specs.Scripts.{Flight, Script as Source, napped};
ghost use Rattle.lsl_region.specs.Answers.{integer_at, is_on_own_mailbox, listen_asked, listened_reply, listened_script, mailed, wake_after};
ghost use Rattle.lsl_region.specs.Mailing.{Becomes, Keeps, stop_for, stop_of};

use crate::arguments::{integer_at, text_at};
use lsl_post::ListenFault;
use lsl_running::{Fault, Reply};
use lsl_script::Live;
use lsl_text::NoMemory;
use lsl_value::{BuiltinId, Value};
use std::alloc::AllocError;

/// How many milliseconds a second has.
const SECOND: u64 = 1000;

/// Answers a call on the script's own mailbox or sleep.
#[inline(never)]
pub(crate) fn mail(
    live: &mut Live,
    id: BuiltinId,
    args: &[Value],
    clock: u64,
) -> Result<Reply, NoMemory>
    requires id { is_on_own_mailbox id ≡ true }
    requires clock { clock ≤ latest_clock }
    ensures does { IfOk result (λ reply. (codes : List Code) (unit : Code) (s : Source) (f : Flight) (of : Id) →
        Waits codes unit s f of live.old →
        Waits codes unit (mailed id args.now clock s).0 f of live.new × (reply ≡ (mailed id args.now clock s).1)) }
    ensures keeps { Keeps live.old live.new }
    ensures fits { IfOk result (Answers id) }
    ensures stop { IfOk result (λ reply. stop_of reply ≡ stop_for id args.now live.old.parts.listens) }
{
    match id {
        BuiltinId::Listen => listen(live, args),
        BuiltinId::ListenRemove => {
            unlisten(live, args);
            Ok(Reply::Value(None))
        }
        BuiltinId::ListenControl => {
            control(live, args);
            Ok(Reply::Value(None))
        }
        BuiltinId::SetTimerEvent => {
            set_timer(live, args, clock);
            Ok(Reply::Value(None))
        }
        BuiltinId::Sleep => {
            sleep(live, args, clock);
            Ok(Reply::Value(None))
        }
        _ => unreachable!(),
    }
}

// Asks for a listen, and returns its number; the script stops where it has as many as it can.
fn listen(live: &mut Live, args: &[Value]) -> Result<Reply, NoMemory>
    ensures does { IfOk result (λ reply. (codes : List Code) (unit : Code) (s : Source) (f : Flight) (id : Id) →
        Waits codes unit s f id live.old →
        Waits codes unit (listened_script (listen_asked args.now s) s) f id live.new
        × (reply ≡ listened_reply (listen_asked args.now s))) }
    ensures fits { IfOk result (Answers ids.Listen) }
    ensures stop { IfOk result (λ reply. stop_of reply ≡ stop_for ids.Listen args.now live.old.parts.listens) }
    ensures keeps { Keeps live.old live.new }
{
    let (name, id, message) = (text_at(args, 1)?, text_at(args, 2)?, text_at(args, 3)?);
    match live.listens().add(integer_at(args, 0), name, id, message) {
        Ok(number) => Ok(Reply::Value(Some(Value::Int(number)))),
        Err(ListenFault::TooMany) => Ok(Reply::Stop(Fault::TooManyListens)),
        Err(ListenFault::NoMemory) => Err(AllocError),
    }
}

// Forgets a listen. Takes no memory.
fn unlisten(live: &mut Live, args: &[Value])
    ensures does { Becomes live.old live.new
        (λ s. listening (closed (integer_at 0 args.now) s.mailbox.listens) s) }
    ensures keeps { Keeps live.old live.new }
{
    live.listens().close(integer_at(args, 0));
}

// Makes a listen active or not. Takes no memory.
fn control(live: &mut Live, args: &[Value])
    ensures does { Becomes live.old live.new
        (λ s. listening (controlled (integer_at 0 args.now) (not (int_eq (integer_at 1 args.now) (pos 0)))
        s.mailbox.listens) s) }
    ensures keeps { Keeps live.old live.new }
{
    live.listens().control(integer_at(args, 0), holds(args, 1));
}

// Whether the integer at this place isn't 0.
fn holds(args: &[Value], place: usize) -> bool
    ensures { result ≡ not (int_eq (integer_at place args.now) (pos 0)) }
{
    integer_at(args, place) != 0
}

// Sets the timer. Takes no memory.
fn set_timer(live: &mut Live, args: &[Value], clock: u64)
    requires { clock ≤ latest_clock }
    ensures does { Becomes live.old live.new (λ s. ticking (timing_set (integer_at 0 args.now) clock) s) }
    ensures keeps { Keeps live.old live.new }
{
    live.timer().set(integer_at(args, 0), clock);
}

// Puts the script to sleep. Takes no memory.
fn sleep(live: &mut Live, args: &[Value], clock: u64)
    requires { clock ≤ latest_clock }
    ensures does { Becomes live.old live.new (λ s. napped (wake_after (integer_at 0 args.now) clock) s) }
    ensures keeps { Keeps live.old live.new }
{
    live.nap(wake_after(integer_at(args, 0), clock));
}

// When a script wakes that sleeps for these seconds.
fn wake_after(seconds: i32, clock: u64) -> u64
    requires { clock ≤ latest_clock }
    ensures { result ≡ wake_after seconds clock }
{
    if seconds > 0 {
        return clock + SECOND * seconds as u64;
    }
    clock
}
