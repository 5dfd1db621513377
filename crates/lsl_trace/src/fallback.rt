//! The runs of the copies, until they do what the scripts do. A script that does something else with its markers gets
//! fewer of them, and the others keep theirs.

ghost use Rattle.std.specs.Prelude.{◌≡◌, ◌≤◌, IfOk};
ghost use Rattle.lsl_ports.specs.Counts.{NoneFell};
ghost use Rattle.lsl_marks.specs.Said.{Says};

use crate::copies::{Copies, Counted, Replaced, parted_world, replay_copies, touched};
use crate::replaying::MAX_JOURNAL_BYTES;
use crate::script::Script;
use lsl_marks::{Guilty, MAX_SCRIPT_BYTES, Marker, Played, Tier, Told, Unit, read_told};
use lsl_ports::{Link, MemorySink, Shelf};
use lsl_text::{NoMemory, push_quoted};
use lsl_top::Status;
use std::alloc::{AllocError, Global};

/// A world whose copies are run: its file's name and bytes, what scripts it has, its plain journal, and what begins
/// what markers say.
#[derive(Clone, Copy)]
pub struct World<'a> {
    pub name: &'a str,
    pub file: &'a [u8],
    pub scripts: &'a [Script],
    pub counted: Counted<'a>,
    pub plain: &'a [u8],
    pub mark: &'a [u8],
}

/// The copies that did what the scripts do: their markers, and their journal. Without these only the plain journal is
/// reported.
#[derive(Drop)]
pub struct Held {
    pub markers: Vec<Marker>,
    pub journal: MemorySink,
}

/// How a run of copies ended.
#[derive(Drop)]
enum Attempt {
    Held(Held),
    Blamed(Blame),
    Full,
}

/// The copies that are to report less.
#[derive(Clone, Copy, Debug, PartialEq, Eq)]
enum Blame {
    /// The unit at this place.
    Unit(usize),
    All,
}

/// What came of all runs.
#[derive(Drop)]
pub enum Settled {
    Held(Held),
    /// No copies can be run.
    Nothing,
    /// The journal of the copies is too long.
    TooLong,
}

impl World<'_> {
    /// The entries that copies reported, if they did what the scripts do.
    pub fn read<'b>(&'b self, alloc: Global, held: &'b Held) -> Result<Told<'b>, NoMemory>
        ensures { IfOk result (λ told. Says told self.now.plain.now) }
    {
        let played = Played {
            scripts: self.counted.scripts,
            objects: self.counted.objects,
            markers: held.markers.as_slice(),
            mark: self.mark,
        };
        read_told(alloc, played, held.journal.as_bytes(), self.plain)
    }

    /// Runs copies until they do what the scripts do. The units then have the tiers of the last ones.
    pub fn settle<S: Shelf, L: Link>(
        &self,
        alloc: Global,
        units: &mut [Unit],
        shelf: &mut S,
        link: &mut L,
    ) -> Result<Settled, NoMemory>
        ensures unchanged { S.held shelf.new ≡ S.held shelf.old }
        ensures counted { NoneFell (S.faults shelf.old) (S.faults shelf.new)
            × (L.faults link.old ≤ L.faults link.new) }
    {
        'attempts: for _ in 0..units.len().saturating_mul(4).saturating_add(1) {
            match self.attempt(alloc, units, shelf, link)? {
                Attempt::Held(held) => return Ok(Settled::Held(held)),
                Attempt::Full => return Ok(Settled::TooLong),
                Attempt::Blamed(blame) => {
                    if !tell_less(units, blame) {
                        return Ok(Settled::Nothing);
                    }
                }
            }
        }
        Ok(Settled::Nothing)
    }

    fn attempt<S: Shelf, L: Link>(
        &self,
        alloc: Global,
        units: &[Unit],
        shelf: &mut S,
        link: &mut L,
    ) -> Result<Attempt, NoMemory>
        ensures unchanged { S.held shelf.new ≡ S.held shelf.old }
        ensures counted { NoneFell (S.faults shelf.old) (S.faults shelf.new)
            × (L.faults link.old ≤ L.faults link.new) }
    {
        let mut copies = Vec::new(alloc);
        let mut markers = Vec::new(alloc);
        copies.push(Replaced {
            name: Vec::from_slice(alloc, self.name.as_bytes())?,
            text: parted_world(alloc, self.file, self.counted)?,
        })?;
        copies.push(touched(alloc, self.counted.touched)?)?;
        if let Some(place) = self.push_copies(alloc, units, &mut copies, &mut markers)? {
            return Ok(Attempt::Blamed(Blame::Unit(place)));
        }
        let mut journal = MemorySink::new(alloc, MAX_JOURNAL_BYTES, Vec::new(alloc))?;
        let mut shelf = Copies::new(shelf, copies.as_slice());
        let status = replay_copies(alloc, self.name, &mut shelf, &mut journal, link)?;
        self.attempted(alloc, units, status, Held { markers, journal })
    }

    /// Adds the copies of the scripts that report something. Returns the place of one that is too long.
    fn push_copies(
        &self,
        alloc: Global,
        units: &[Unit],
        copies: &mut Vec<Replaced>,
        markers: &mut Vec<Marker>,
    ) -> Result<Option<usize>, NoMemory> {
        for (place, unit) in units.iter().enumerate() {
            if unit.tier == Tier::Nothing {
                continue;
            }
            let text = unit.copy(alloc, place, self.mark, markers)?;
            if text.len() > MAX_SCRIPT_BYTES {
                return Ok(Some(place));
            }
            let name = Vec::from_slice(alloc, unit.name.as_slice())?;
            copies.push(Replaced { name, text })?;
        }
        Ok(None)
    }

    fn attempted(
        &self,
        alloc: Global,
        units: &[Unit],
        status: Status,
        held: Held,
    ) -> Result<Attempt, NoMemory> {
        match status {
            Status::Ok => {
                let blame = match self.read(alloc, &held)? {
                    Told::Entries(_) => None,
                    Told::Differs(guilty) => Some(self.blame(guilty)),
                };
                match blame {
                    Some(blame) => Ok(Attempt::Blamed(blame)),
                    None => Ok(Attempt::Held(held)),
                }
            }
            Status::WriteFault => Ok(Attempt::Full),
            Status::NoMemory => Err(AllocError),
            _ => Ok(Attempt::Blamed(refused_in(alloc, units, held.journal.as_bytes())?)),
        }
    }

    fn blame(&self, guilty: Guilty) -> Blame {
        match guilty {
            Guilty::Script(number) => match self.scripts.get(number.saturating_sub(1)) {
                Some(script) => Blame::Unit(script.unit),
                None => Blame::All,
            },
            Guilty::Unknown => Blame::All,
        }
    }
}

/// The unit that a refusal names.
fn refused_in(alloc: Global, units: &[Unit], output: &[u8]) -> Result<Blame, NoMemory> {
    for (place, unit) in units.iter().enumerate() {
        let mut line = Vec::from_slice(alloc, b"bad script ")?;
        push_quoted(&mut line, unit.name.as_slice())?;
        if output.starts_with(line.as_slice()) {
            return Ok(Blame::Unit(place));
        }
    }
    Ok(Blame::All)
}

/// Lets a unit report less, or all of them if it reports nothing already. Returns whether one reported something.
fn tell_less(units: &mut [Unit], blame: Blame) -> bool {
    if let Blame::Unit(place) = blame
        && let Some(unit) = units.get_mut(place)
        && unit.tier != Tier::Nothing
    {
        unit.tier = unit.tier.next();
        return true;
    }
    let mut told = false;
    for unit in units.iter_mut() {
        told = told || unit.tier != Tier::Nothing;
        unit.tier = unit.tier.next();
    }
    told
}
