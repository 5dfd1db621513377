//! What is kept of the moments that were passed.

ghost use Rattle.std.specs.Prelude.{◌≡◌, ℕ, ◌==◌, ◌||◌, nat_eq, List, [], ◌∷◌};
ghost use Rattle.std.specs.Result.{OnOk};
ghost use Rattle.std.specs.HashSet.{contains};
ghost use Rattle.lsl_seek.specs.Aims.{is_within};
ghost use Rattle.lsl_seek.specs.Moments.{Moment as Told, seen};
ghost use Rattle.lsl_seek.specs.Watches.{Watches, WatchesAt};
ghost use Rattle.lsl_seek.specs.declared.aim.Aim.{Aim as TheAim};

use crate::aim::Aim;
use crate::bytes::cut;
use crate::entry::{Slot, Sort, parse_set};
use crate::trace::{Moment, Trace};
use lsl_text::NoMemory;
use std::alloc::Global;
use std::collections::{HashMap, HashSet};

/// A variable of a call, or a global of a script, whose serial is 0.
#[derive(Clone, Copy, Debug, PartialEq, Eq, Hash, Drop)]
pub struct Variable {
    pub script: u32,
    pub serial: u32,
    pub slot: Slot,
}

/// What was seen of the moments up to one of them, as far as an aim asks for it.
#[derive(Drop)]
pub struct Watch<'a> {
    /// Step and segment of the last stop before the moment.
    pub stop: Option<(u32, u32)>,
    /// An event was taken after that stop.
    pub is_taken: bool,
    /// The mark of the entry before the moment.
    pub before: u32,
    /// The calls within the aim's call.
    pub inner: HashSet<u32>,
    /// The value of each variable, told at the moment or before.
    pub values: HashMap<Variable, &'a [u8]>,
    /// The variables that got another value after their script's last stop.
    pub news: Vec<Variable>,
}

impl<'a> Watch<'a> {
    /// Nothing was seen.
    pub fn new(alloc: Global) -> Watch<'a>
        ensures { (aim : TheAim) → Watches aim result [] }
    {
        Watch {
            stop: None,
            is_taken: false,
            before: 0,
            inner: HashSet::new(alloc),
            values: HashMap::new(alloc),
            news: Vec::new(alloc),
        }
    }

    /// Comes to a moment.
    pub fn come(&mut self, aim: &Aim, moment: &Moment<'a>) -> Result<(), NoMemory>
        ensures { OnOk result ((past : List Told) → Watches aim.now self.old past → WatchesAt aim.now self.new (seen moment.now) past) }
    {
        match aim {
            Aim::Outside(_, call) => self.enter(*call, moment),
            Aim::If(_) | Aim::Changes(_) => self.set(moment),
            _ => Ok(()),
        }
    }

    /// Leaves the moment.
    pub fn go(&mut self, moment: &Moment<'a>)
        ensures { (aim : TheAim) (past : List Told) → WatchesAt aim self.old (seen moment.now) past → Watches aim self.new (seen moment.now ∷ past) }
    {
        if moment.sort.is_stop() {
            self.stop = Some((moment.entry.step, moment.entry.segment));
            self.is_taken = false;
            let script = moment.entry.script;
            self.news.retain(|it| it.script != script);
        }
        if matches!(moment.sort, Sort::Took) {
            self.is_taken = true;
        }
        self.before = moment.entry.mark;
    }

    fn enter(&mut self, call: u32, moment: &Moment<'a>) -> Result<(), NoMemory>
        ensures stop { self.new.stop ≡ self.old.stop }
        ensures taken { self.new.is_taken ≡ self.old.is_taken }
        ensures before { self.new.before ≡ self.old.before }
        ensures inner { OnOk result ((past : List Told) → ((q : ℕ) → contains nat_eq self.old.inner q ≡ is_within call q past)
            → (q : ℕ) → contains nat_eq self.new.inner q ≡ is_within call q (seen moment.now ∷ past)) }
    {
        if moment.entry.mark == 0 {
            return Ok(());
        }
        if self.encloses(call, moment.entry.outer) {
            self.inner.insert(moment.entry.serial)?;
        } else {
            let _ = self.inner.remove(&moment.entry.serial);
        }
        Ok(())
    }

    // Whether a call is the aim's or within it.
    fn encloses(&self, call: u32, serial: u32) -> bool
        ensures { result ≡ (serial == call || contains nat_eq self.now.inner serial) }
    {
        serial == call || self.inner.contains(&serial)
    }

    fn set(&mut self, moment: &Moment<'a>) -> Result<(), NoMemory>
        ensures stop { self.new.stop ≡ self.old.stop }
        ensures taken { self.new.is_taken ≡ self.old.is_taken }
        ensures before { self.new.before ≡ self.old.before }
    {
        if moment.entry.mark == 0 {
            return Ok(());
        }
        let mut rest = moment.sets;
        'sets: while !rest.is_empty() {
            let (line, after) = cut(rest, b'\n');
            let Some(set) = parse_set(line) else {
                return Ok(());
            };
            let variable = Variable {
                script: moment.entry.script,
                serial: set.serial,
                slot: set.slot,
            };
            let before = self.values.insert(variable, set.value)?;
            if let Some(before) = before {
                if before != set.value {
                    self.news.push(variable)?;
                }
            }
            rest = after;
        }
        Ok(())
    }
}
