//! Where a move leads.

ghost use Rattle.std.specs.Prelude.{◌≡◌, ◌&&◌, false, cond, List, ◌∷◌, drop};
ghost use Rattle.std.specs.List.{find};
ghost use Rattle.std.specs.Option.{option_map};
ghost use Rattle.std.specs.Result.{IfOk};
ghost use Rattle.lsl_seek.specs.Aims.{asks_values, meets};
ghost use Rattle.lsl_seek.specs.Finding.{IsFirst, IsLast};
ghost use Rattle.lsl_seek.specs.Calls.{call_after, caller, is_of_call};
ghost use Rattle.lsl_seek.specs.Leads.{IsBeside, Leads, in_hand, known};
ghost use Rattle.lsl_seek.specs.Moments.{Moment as Told, marks_of, moment_of, moments, seen, up_to};
ghost use Rattle.lsl_seek.specs.Watches.{Watches};

use crate::aim::Aim;
use crate::entry::Sort;
use crate::moves::{Move, To};
use crate::trace::{Moment, Trace};
use crate::watch::Watch;
use lsl_text::NoMemory;
use std::alloc::Global;

impl<'a> Trace<'a> {
    /// The moment to which a move leads from the moment of this number: the first after it that the move asks for, or
    /// the last before it where the move goes back.
    pub fn find(&self, alloc: Global, from: usize, it: &Move) -> Result<Option<usize>, NoMemory>
        ensures { IfOk result (λ found. Leads self.now it.now from found) }
    {
        let here = self.moment(from);
        match &it.to {
            To::Moment(number) => Ok(self.known(*number as usize)),
            To::Place(step, segment) => self.first_after(alloc, 0, &Aim::From(*step, *segment)),
            To::Step => self.beside(alloc, from, it.is_back, &Aim::Of(here.entry.script)),
            To::Next => {
                let call = self.active(from, &here);
                self.beside(
                    alloc,
                    from,
                    it.is_back,
                    &Aim::Outside(here.entry.script, call),
                )
            }
            To::Finish => {
                let call = self.active(from, &here);
                let outer = self.outer(from, call);
                self.beside(
                    alloc,
                    from,
                    it.is_back,
                    &Aim::Outside(here.entry.script, outer),
                )
            }
            To::Segment => {
                self.beside(
                    alloc,
                    from,
                    it.is_back,
                    &Aim::Segment(here.entry.step, here.entry.segment),
                )
            }
            To::Turn => self.beside(alloc, from, it.is_back, &Aim::Turn(here.entry.step)),
            To::Handler => self.beside(alloc, from, it.is_back, &Aim::Handler),
            To::Until(aim) => self.beside(alloc, from, it.is_back, aim),
        }
    }

    fn known(&self, number: usize) -> Option<usize>
        ensures { result ≡ known self.now number }
    {
        if self.has(number) { Some(number) } else { None }
    }

    fn beside(
        &self,
        alloc: Global,
        from: usize,
        is_back: bool,
        aim: &Aim,
    ) -> Result<Option<usize>, NoMemory>
        ensures { asks_values aim.now ≡ false → IfOk result (λ found. IsBeside self.now is_back aim.now from found) }
    {
        if is_back {
            self.last_before(alloc, from, aim)
        } else {
            self.first_after(alloc, from, aim)
        }
    }

    fn first_after(&self, alloc: Global, from: usize, aim: &Aim) -> Result<Option<usize>, NoMemory>
        ensures { asks_values aim.now ≡ false → IfOk result (λ found. IsFirst self.now aim.now from found) }
    {
        let mut watch = Watch::new(alloc);
        'moments: for (i, place) in self.places.iter().enumerate() {
            let is_met = self.passes(aim, &mut watch, *place, from <= i)?;
            if is_met {
                return Ok(Some(i + 1));
            }
        }
        Ok(None)
    }

    fn last_before(&self, alloc: Global, from: usize, aim: &Aim) -> Result<Option<usize>, NoMemory>
        ensures { asks_values aim.now ≡ false → IfOk result (λ found. IsLast self.now aim.now from found) }
    {
        let mut watch = Watch::new(alloc);
        let mut found = None;
        'moments: for (i, place) in self.before(from).iter().enumerate() {
            let is_met = self.passes(aim, &mut watch, *place, true)?;
            found = latest(found, i + 1, is_met);
        }
        Ok(found)
    }

    // Passes the moment at a place. Says whether it is one that the aim asks for, where that is sought.
    fn passes(
        &self,
        aim: &Aim,
        watch: &mut Watch<'a>,
        place: usize,
        is_sought: bool,
    ) -> Result<bool, NoMemory>
        ensures { IfOk result (λ is_met. (past : List Told) → Watches aim.now watch.old past
            → Watches aim.now watch.new (moment_of (marks_of self.now) (drop place self.now.text.now) ∷ past)
            × (asks_values aim.now ≡ false → is_met ≡ (is_sought && meets self.now aim.now (moment_of (marks_of self.now) (drop place self.now.text.now)) past))) }
    {
        let moment = self.moment_at(place);
        watch.come(aim, &moment)?;
        let is_met = is_sought && aim.is_met(self, watch, &moment);
        watch.go(&moment);
        Ok(is_met)
    }

    /// The serial of the call that is active at a moment, or 0.
    pub fn active(&self, number: usize, moment: &Moment) -> u32
        ensures { result ≡ in_hand self.now number (seen moment.now) }
    {
        match moment.sort {
            Sort::Enter | Sort::Statement | Sort::Again | Sort::Leave | Sort::Note => {
                moment.entry.serial
            }
            Sort::Apart => 0,
            Sort::Took | Sort::Done | Sort::Fault | Sort::Speech | Sort::Other => {
                self.active_after(number.saturating_sub(1), moment.entry.script)
            }
        }
    }

    // The serial of the call that a script is in after the moments up to this number, or 0.
    fn active_after(&self, number: usize, script: u32) -> u32
        ensures { result ≡ call_after script (up_to (moments self.now) number) }
    {
        let mut rest = self.up_to(number);
        'back: while let [more @ .., place] = rest {
            let it = self.moment_at(*place);
            if it.tells_call_of(script) {
                return it.call_told();
            }
            rest = more;
        }
        0
    }

    // The serial of the call from which a call was made, or 0.
    fn outer(&self, number: usize, serial: u32) -> u32
        ensures { result ≡ caller serial (up_to (moments self.now) number) }
    {
        match self.latest_of(number, serial) {
            Some(it) => it.entry.outer,
            None => 0,
        }
    }

    /// The latest entry of a call among the moments up to this number.
    pub fn latest_of(&self, number: usize, serial: u32) -> Option<Moment<'a>>
        ensures { option_map seen result ≡ find (is_of_call serial) (up_to (moments self.now) number) }
    {
        let mut rest = self.up_to(number);
        'back: while let [more @ .., place] = rest {
            let it = self.moment_at(*place);
            if it.entry.is_of(serial) {
                return Some(it);
            }
            rest = more;
        }
        None
    }
}

fn latest(found: Option<usize>, number: usize, is_met: bool) -> Option<usize>
    ensures { result ≡ cond is_met (Some number) found }
{
    if is_met { Some(number) } else { found }
}
