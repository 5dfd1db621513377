//! A host of one script: it answers calls that change the mailbox, and shows in words what the script does.

ghost use Rattle.std.specs.Prelude.{◌≡◌, ◌≤◌, ℕ, IfOk, OnOk};
ghost use Rattle.lsl_code.specs.declared.woven_units.Woven.{Woven as Code};
ghost use Rattle.lsl_code.specs.Kinded.{Answers};
ghost use Rattle.lsl_code.specs.Weaves.{Weaves};
ghost use Rattle.lsl_machine.specs.State.{CanRun};
ghost use Rattle.lsl_machine.specs.declared.standing.Standing.TheVariants as standings;
ghost use Rattle.lsl_post.specs.Timing.{latest_clock};
ghost use Rattle.lsl_script.specs.Awake.{IsAskedFor, IsAwake};
ghost use Rattle.lsl_script.specs.Fitting.{FitsUnit};
ghost use Rattle.tests_world.specs.Stops.{IsAfter, Keeps, StandsAt};

use lsl_build::build;
use lsl_code::Woven;
use lsl_post::ListenFault;
use lsl_running::{Call, Fault, Reply};
use lsl_script::{Live, Script, Turn, WakeFault};
use lsl_table::{BuiltinRow, event_name};
use lsl_text::NoMemory;
use lsl_value::{BuiltinId, Text, Value};
use std::alloc::{AllocError, Global};
use std::process::Abort;

/// The woven unit of an accepted text.
pub(crate) fn unit_of(rt: &impl Abort, alloc: Global, text: &str) -> Woven
    ensures { Weaves result }
{
    match build(alloc, text.as_bytes()) {
        Ok(built) => built.code,
        Err(_) => panic!(rt; "not accepted: {text}"),
    }
}

/// One segment of the script at this reading of the clock.
pub(crate) fn segment(
    alloc: Global,
    unit: &Woven,
    script: Script,
    clock: u64,
    told: &mut String,
) -> Result<Script, NoMemory>
    requires fits { FitsUnit unit.now script }
    requires weaves { Weaves unit.now }
    requires clock { clock ≤ latest_clock }
    ensures { IfOk result (FitsUnit unit.now) }
{
    match script.wake(alloc, unit, clock) {
        Ok(live) => {
            tell_taken(&live, told)?;
            to_stop(alloc, unit, live, clock, told)
        }
        Err(WakeFault::NotReady(script)) => {
            told.push_str("not ready")?;
            Ok(script)
        }
        Err(WakeFault::NoMemory) => Err(AllocError),
    }
}

/// What was taken when the script woke.
fn tell_taken(live: &Live, told: &mut String) -> Result<(), NoMemory> {
    if let Some(event) = live.took() {
        told.push_str("took ")?;
        told.push_str(event_name(event.id))?;
        told.push_str(", ")?;
    }
    Ok(())
}

/// To the next tick, end or fault, with all answers on the way. Out of memory also if it makes a thousand calls.
fn to_stop(
    alloc: Global,
    unit: &Woven,
    mut live: Live,
    clock: u64,
    told: &mut String,
) -> Result<Script, NoMemory>
    requires able { CanRun live.machine.standing }
    requires awake { IsAwake unit.now live }
    requires weaves { Weaves unit.now }
    requires clock { clock ≤ latest_clock }
    ensures { IfOk result (FitsUnit unit.now) }
{
    let mut turn = live.go(unit);
    for at in 0..1_000u32 {
        turn = match turn {
            Turn::Asks(call) => answered(alloc, unit, &mut live, call, clock, told)?,
            last => return stopped(alloc, unit, live, last, told),
        };
    }
    Err(AllocError)
}

/// The script at rest at a tick, or after it ended or stopped.
pub(crate) fn stopped(
    alloc: Global,
    unit: &Woven,
    live: Live,
    turn: Turn,
    told: &mut String,
) -> Result<Script, NoMemory>
    requires after { IsAfter unit.now turn live }
    requires weaves { Weaves unit.now }
    ensures { IfOk result (FitsUnit unit.now) }
{
    match turn {
        Turn::AtTick => {
            told.push_str("tick")?;
            Ok(live.rest(unit)?)
        }
        Turn::Ended => {
            let closed = live.close(alloc, unit)?;
            write!(told, "done {} {:?}", closed.charge, closed.cleared)?;
            Ok(closed.script)
        }
        Turn::Faulted(fault) => {
            write!(told, "{fault:?}")?;
            Ok(live.fail(alloc, unit, fault)?)
        }
        _ => Err(AllocError),
    }
}

/// Does and answers a call, and lets the script continue.
fn answered(
    alloc: Global,
    unit: &Woven,
    live: &mut Live,
    call: Call,
    clock: u64,
    told: &mut String,
) -> Result<Turn, NoMemory>
    requires awake { IsAwake unit.now live.old }
    requires asking { live.old.machine.standing ≡ standings.Asking call.id }
    requires clock { clock ≤ latest_clock }
    ensures { IfOk result (λ turn. IsAfter unit.now turn live.new) }
{
    tell_call(&call, told)?;
    match perform(live, &call, clock)? {
        Reply::Value(value) => {
            live.keep_room(call);
            live.answer(value);
            Ok(live.go(unit))
        }
        Reply::Stop(fault) => Ok(Turn::Faulted(fault)),
    }
}

/// What is asked for, with its first argument.
pub(crate) fn tell_call(call: &Call, told: &mut String) -> Result<(), NoMemory> {
    told.push_str(call.id().row().name)?;
    match call.args().first() {
        Some(Value::Int(n)) => write!(told, " {n}, "),
        Some(Value::Str(text)) => write!(told, " {}, ", text.as_str()),
        _ => told.push_str(", "),
    }
}

/// What the call does to the mailbox, and its answer. Out of memory also at any other call.
fn perform(live: &mut Live, call: &Call, clock: u64) -> Result<Reply, NoMemory>
    requires clock { clock ≤ latest_clock }
    ensures keeps { OnOk result (Keeps live.old live.new) }
    ensures fits { IfOk result (Answers call.now.id) }
{
    let number = first_of(call.args());
    match call.id() {
        BuiltinId::Listen => listen(live, number),
        BuiltinId::OwnerSay => Ok(Reply::Value(None)),
        BuiltinId::Sleep => {
            live.nap(clock.saturating_add(1_000 * number.max(0) as u64));
            Ok(Reply::Value(None))
        }
        BuiltinId::SetTimerEvent => {
            set_timer(live, number, clock);
            Ok(Reply::Value(None))
        }
        _ => Err(AllocError),
    }
}

/// The first of these values if it is an integer, and otherwise 0.
pub(crate) fn first_of(args: &[Value]) -> i32 {
    match args.first() {
        Some(Value::Int(n)) => *n,
        _ => 0,
    }
}

/// A listen on this channel to whatever is said there.
fn listen(live: &mut Live, channel: i32) -> Result<Reply, NoMemory>
    ensures keeps { Keeps live.old live.new }
    ensures fits { IfOk result (Answers BuiltinId.Listen) }
{
    match live
        .listens()
        .add(channel, Text::new(), Text::new(), Text::new())
    {
        Ok(number) => Ok(Reply::Value(Some(Value::Int(number)))),
        Err(ListenFault::TooMany) => Ok(Reply::Stop(Fault::TooManyListens)),
        Err(ListenFault::NoMemory) => Err(AllocError),
    }
}

/// Sets the timer.
fn set_timer(live: &mut Live, seconds: i32, clock: u64)
    requires { clock ≤ latest_clock }
    ensures { Keeps live.old live.new }
{
    live.timer().set(seconds, clock);
}
