//! What a play is run with: the code of its scripts, and its notecards; or the refusal of the first that isn't one.
ghost use Rattle.std.specs.Prelude.{◌≡◌, IfOk, IsErrOf};
ghost use Rattle.lsl_text.specs.declared.Refusal.TheVariants as refusals;
ghost use Rattle.lsl_world.specs.Ranges.{IsInRange};
ghost use Rattle.lsl_top.specs.Meant.{play_in, read_in};
ghost use Rattle.lsl_top.specs.Prepared.{IsCast, IsUnfit, of_note, of_script};
ghost use Rattle.lsl_top.specs.declared.preparing.Unfit.{Unfit as TheUnfit};

use crate::building::{Refused, build_scripts};
use crate::noting::{BadCard, cards_of};
use crate::play::Play;
use lsl_code::Library;
use lsl_notes::Cards;
use lsl_text::Refusal;
use std::alloc::Global;

/// The code of a play's scripts, and its notecards.
#[derive(Drop)]
pub struct Cast {
    pub units: Library,
    pub cards: Cards,
}

/// Why a play isn't run.
#[derive(Clone, Copy, PartialEq, Eq)]
pub enum Unfit {
    /// The first script that isn't accepted.
    Script(Refused),
    /// The first notecard that isn't one.
    Note(BadCard),
}

/// Builds the scripts of a play, and tests its notecards.
pub fn prepare(alloc: Global, play: &Play<'_>) -> Result<Cast, Refusal<Unfit>>
    requires { IsInRange play.now.world.now }
    ensures ok { IfOk result (λ cast. IsCast (play_in play.now) (read_in play.now) cast) }
    ensures refused { (unfit : TheUnfit) → IsErrOf result (refusals.Fault unfit) → IsUnfit (read_in play.now) unfit }
{
    match build_scripts(alloc, play.texts.as_slice()) {
        Ok(units) => match cards_of(alloc, play.world.notes.as_slice(), play.notes.as_slice()) {
            Ok(cards) => Ok(Cast { units, cards }),
            Err(refusal) => Err(of_note(refusal)),
        },
        Err(refusal) => Err(of_script(refusal)),
    }
}

fn of_script(refusal: Refusal<Refused>) -> Refusal<Unfit>
    ensures { result ≡ of_script refusal }
{
    match refusal {
        Refusal::Fault(refused) => Refusal::Fault(Unfit::Script(refused)),
        Refusal::NoMemory => Refusal::NoMemory,
    }
}

fn of_note(refusal: Refusal<BadCard>) -> Refusal<Unfit>
    ensures { result ≡ of_note refusal }
{
    match refusal {
        Refusal::Fault(bad) => Refusal::Fault(Unfit::Note(bad)),
        Refusal::NoMemory => Refusal::NoMemory,
    }
}
