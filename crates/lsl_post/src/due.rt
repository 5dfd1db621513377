//! When scripts are due, in the order of the times.

ghost use Rattle.std.specs.Prelude.{◌≡◌, false, [], map, Some, None, IfOk, OnOk, OnErr, true};
ghost use Rattle.std.specs.BTreeMap.{get, IsUnchanged as IsMapUnchanged, Updates as UpdatesMap};
ghost use Rattle.std.specs.BTreeSet.{IsUnchanged as IsSetUnchanged, IsOrdered, Updates as UpdatesSet, contains, insert_key};
ghost use Rattle.std.specs.Ordering.{nat_cmp};
ghost use Rattle.lsl_post.specs.Due.{entry_cmp, IsIndex, IsRipe, Puts};
ghost use Rattle.lsl_post.specs.DueTables.{entries_by};

use lsl_text::NoMemory;
use std::alloc::Global;
use std::collections::{BTreeMap, BTreeSet};
use std::marker::Model;

/// When scripts are due: a list of due times with their scripts, in rising order, each script at most once.
#[derive(Drop)]
pub struct Due {
    order: BTreeSet<(u64, u32)>,
    times: BTreeMap<u32, u64>,
}

impl Model for Due {
    ghost use Rattle.std.specs.Prelude.{List, ℕ};
    ghost use Rattle.lsl_post.specs.DueTables.{AreTimes};

    ghost Value = { List (ℕ × ℕ) };

    ghost view = { λ d. d.order.keys };

    ghost invariant = { λ d. AreTimes d.order d.times };
}

impl Due {
    /// No script is due. Takes no memory.
    pub fn new(alloc: Global) -> Due
        ensures { result ≡ [] }
    {
        Due {
            order: BTreeSet::new(alloc),
            times: BTreeMap::new(alloc),
        }
    }

    /// Sets the time at which the script is due, or that it isn't. Takes memory for the first time of a script, and for
    /// a new one; its cost is the logarithm of all.
    pub fn put(&mut self, script: u32, due: Option<u64>) -> Result<(), NoMemory>
        ensures ok { OnOk result (Puts script due self.old self.new) }
        ensures unchanged { OnErr result (self.new ≡ self.old) }
        ensures index { IsIndex self.new }
    {
        match due {
            Some(due) => self.set(script, due),
            None => {
                self.stop(script);
                Ok(())
            }
        }
    }

    /// The scripts that are due at or before the clock, in rising order. Takes memory for these. Its cost is that of
    /// sorting them, and the logarithm of all.
    pub fn ripe(&self, alloc: Global, clock: u64) -> Result<Vec<u32>, NoMemory>
        ensures ok { IfOk result (λ scripts. IsRipe clock self.now scripts.items) }
        ensures index { IsIndex self.now }
    {
        let mut scripts = listed(alloc, &self.order, clock)?;
        scripts.sort_unstable();
        Ok(scripts)
    }
}

impl Due {
    fn set(&mut self, script: u32, due: u64) -> Result<(), NoMemory>
        ensures ok { OnOk result (Puts script (Some due) self.old self.new) }
        ensures unchanged { OnErr result (self.new ≡ self.old) }
        ensures index { IsIndex self.new }
    {
        match time_of(&self.times, script) {
            Some(old) => {
                if old == due {
                    return Ok(());
                }
                add(&mut self.order, &mut self.times, script, due)?;
                self.order.remove(&(old, script));
                Ok(())
            }
            None => {
                add(&mut self.order, &mut self.times, script, due)?;
                Ok(())
            }
        }
    }

    fn stop(&mut self, script: u32)
        ensures puts { Puts script None self.old self.new }
        ensures index { IsIndex self.new }
    {
        match self.times.remove(&script) {
            Some(old) => drop(self.order.remove(&(old, script))),
            None => {}
        }
    }
}

// When the script is due.
fn time_of(times: &BTreeMap<u32, u64>, script: u32) -> Option<u64>
    ensures { result ≡ get nat_cmp times.now script }
{
    times.get(&script).copied()
}

// Adds an entry that isn't there to both, or to none.
fn add(
    order: &mut BTreeSet<(u64, u32)>,
    times: &mut BTreeMap<u32, u64>,
    script: u32,
    due: u64,
) -> Result<(), NoMemory>
    requires absent { contains entry_cmp order.old (due, script) ≡ false }
    requires rising { IsOrdered entry_cmp order.old }
    ensures order { OnOk result (UpdatesSet entry_cmp order.old order.new (due, script) true) }
    ensures keys { OnOk result (order.new.keys ≡ insert_key entry_cmp order.old.keys (due, script)) }
    ensures rising { IsOrdered entry_cmp order.new }
    ensures times { OnOk result (UpdatesMap nat_cmp times.old times.new script (Some due)) }
    ensures order_unchanged { OnErr result (IsSetUnchanged order.old order.new) }
    ensures times_unchanged { OnErr result (IsMapUnchanged times.old times.new) }
{
    order.insert((due, script))?;
    if let Err(refused) = times.insert(script, due) {
        order.remove(&(due, script));
        return Err(NoMemory::from(refused));
    }
    Ok(())
}

// The scripts that are due, in the order of their times.
fn listed(alloc: Global, order: &BTreeSet<(u64, u32)>, clock: u64) -> Result<Vec<u32>, NoMemory>
    ensures { IfOk result (λ scripts. scripts.items ≡ map (λ e. e.1) (entries_by clock order.now)) }
{
    order
        .range(..=(clock, u32::MAX))
        .map(|entry| entry.1)
        .collect(alloc)
}
