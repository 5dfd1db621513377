//! Which scripts listen on which channel: for each place the channels of its script, and all of them in a table, in
//! order.

ghost use Rattle.std.specs.Prelude.{◌≡◌, ◌<◌, ◌≤◌, ◌+◌, ◌||◌, [], ℤ, ◌&&◌, ◌⊎◌, ℕ, ◌∷◌, ◌++◌, ◌≢◌, IsTrue, length, true, false, not, slice_get, vec_capacity, MatchResult, get_or, slice_set, OnErr, OnOk};
ghost use Rattle.std.specs.Ordering.{int_eq};
ghost use Rattle.lsl_region.specs.Hearing.{HasRow, has_channel, listens_on, most_channels, IsFound, is_in_row};
ghost use Rattle.lsl_region.specs.Table.{BelongsAt, IsOrdered, StandsAt, has_entry, is_heard, no_place, place_of, same_heard};

use lsl_post::Listens;
use lsl_script::Script;
use lsl_text::NoMemory;
use std::alloc::Global;
use std::marker::Model;

/// On how many channels a script listens at most: it has no more listens.
const MOST_CHANNELS: usize = 65;

/// At most 65 channels.
#[derive(Drop)]
pub(crate) struct Channels {
    count: usize,
    channels: [i32; MOST_CHANNELS],
}

impl Model for Channels {
    ghost use Rattle.std.specs.Prelude.{◌≤◌, List, ℤ, take};

    ghost Value = { List ℤ };

    ghost view = { λ c. take c.count c.channels };

    ghost invariant = { λ c. c.count ≤ 65 };
}

impl Channels {
    /// No channel.
    pub(crate) fn new() -> Channels
        ensures { result ≡ [] }
    {
        Channels {
            count: 0,
            channels: [0; MOST_CHANNELS],
        }
    }

    // All of them.
    fn as_slice(&self) -> &[i32]
        ensures value { result.now ≡ self.now }
        ensures few { length result.now ≤ most_channels }
    {
        &self.channels[..self.count]
    }

    // Whether the channel is one of them. Walks them.
    fn has(&self, channel: i32) -> bool
        ensures { result ≡ has_channel self.now channel }
    {
        for at in 0..self.count {
            if self.channels[at] == channel {
                return true;
            }
        }
        false
    }

    // Adds the channel, unless it is one of them. Walks them.
    fn add(&mut self, channel: i32)
        requires { length self.old < most_channels }
        ensures told { (c : ℤ) → has_channel self.new c ≡ (has_channel self.old c || int_eq c channel) }
        ensures few { length self.new ≤ length self.old + 1 }
    {
        if !self.has(channel) {
            self.channels[self.count] = channel;
            self.count += 1;
        }
    }
}

// The channels on which a listen is active. Takes no memory; walks the listens.
fn channels_of(listens: &Listens) -> Channels
    ensures told { (channel : ℤ) → has_channel result channel ≡ listens_on channel listens.now }
    ensures few { length result ≤ most_channels }
{
    let mut channels = Channels::new();
    for place in 0..listens.count() {
        let listen = listens.listen(place);
        if listen.active {
            channels.add(listen.channel);
        }
    }
    channels
}

// Whether these channels are known to be those on which a listen is active: the active listens have them one by one.
// Takes no memory; walks the listens.
fn are_channels_of(channels: &[i32], listens: &Listens) -> bool
    ensures { IsTrue result → (channel : ℤ) → has_channel channels.now channel ≡ listens_on channel listens.now }
{
    let mut met = 0;
    for place in 0..listens.count() {
        let listen = listens.listen(place);
        if listen.active {
            if met == channels.len() || channels[met] != listen.channel {
                return false;
            }
            met += 1;
        }
    }
    met == channels.len()
}

/// The channels on which a listen of a script is active; none where it is out. Takes no memory; walks its listens.
pub(crate) fn script_channels(script: &Option<Script>) -> Channels
    ensures row { HasRow result script.now }
    ensures few { length result ≤ most_channels }
{
    match script {
        Some(script) => channels_of(&script.parts().listens),
        None => Channels::new(),
    }
}

/// No script has so great a place.
const NO_PLACE: usize = usize::MAX;

/// Something is heard on a channel by the script at a place.
#[derive(Clone, Copy, PartialEq, Eq, PartialOrd, Ord)]
pub(crate) struct ChannelEntry {
    pub(crate) channel: i32,
    pub(crate) place: usize,
}

// The place of an entry in the table, or else where it belongs. A binary search.
fn find(table: &[ChannelEntry], entry: &ChannelEntry) -> Result<usize, usize>
    requires { IsOrdered table.now }
    ensures { MatchResult result (StandsAt table.now entry.now) (BelongsAt table.now entry.now) }
{
    table.binary_search(entry)
}

// Takes an entry out, if it is there. Takes no memory.
fn forget(table: &mut Vec<ChannelEntry>, entry: &ChannelEntry)
    requires { IsOrdered table.old.items }
    ensures ordered { IsOrdered table.new.items }
    ensures told { (h : ChannelEntry) → has_entry table.new.items h ≡
        (has_entry table.old.items h && not (same_heard h entry.now)) }
    ensures len { length table.new.items ≤ length table.old.items }
    ensures capacity { vec_capacity table.new ≡ vec_capacity table.old }
{
    if let Ok(at) = find(table, entry) {
        table.remove(at);
    }
}

// Puts an entry in, if it isn't there. Takes no memory.
fn note(table: &mut Vec<ChannelEntry>, entry: ChannelEntry)
    requires ordered { IsOrdered table.old.items }
    requires room { length table.old.items < vec_capacity table.old }
    ensures ordered { IsOrdered table.new.items }
    ensures told { (h : ChannelEntry) → has_entry table.new.items h ≡
        (has_entry table.old.items h || same_heard h entry) }
    ensures len { length table.new.items ≤ length table.old.items + 1 }
    ensures capacity { vec_capacity table.old ≤ vec_capacity table.new }
{
    if let Err(at) = find(table, &entry) {
        match table.insert(at, entry) {
            Ok(()) => (),
            Err(_) => unreachable!(),
        }
    }
}

// The next place from this one on that hears something on this channel, or one that no script has. Takes no memory;
// a binary search.
fn next_heard(table: &[ChannelEntry], channel: i32, from: usize) -> usize
    requires { IsOrdered table.now }
    ensures onward { from ≤ result }
    ensures passed { (place : ℕ) → from ≤ place → place < result → is_heard table.now channel place ≡ false }
    ensures found { (result ≡ no_place) ⊎ (is_heard table.now channel result ≡ true) }
{
    let entry = ChannelEntry {
        channel,
        place: from,
    };
    match find(table, &entry) {
        Ok(_) => from,
        Err(at) => place_at(table, at, channel),
    }
}

// The place of the entry here in the table, where it is on this channel.
fn place_at(table: &[ChannelEntry], at: usize, channel: i32) -> usize
    ensures { result ≡ place_of channel (slice_get table.now at) }
{
    match table.get(at) {
        Some(heard) if heard.channel == channel => heard.place,
        _ => NO_PLACE,
    }
}

/// For each place the channels on which its script listens, and all of them in a table, in order. The next place that
/// listens on a channel is found by a binary search.
#[derive(Drop)]
pub(crate) struct ChannelTable {
    rows: Vec<Channels>,
    table: Vec<ChannelEntry>,
}

impl Model for ChannelTable {
    ghost use Rattle.std.specs.Prelude.{List, ℤ, vec_capacity};
    ghost use Rattle.lsl_region.specs.Hearing.{IsTable};

    ghost Value = { List (List ℤ) };

    ghost view = { λ h. h.rows.items };

    ghost invariant = { λ h. IsTable h.rows.items h.table.items (vec_capacity h.table) };
}

impl ChannelTable {
    /// No place. Takes no memory.
    pub(crate) fn new(alloc: Global) -> ChannelTable
        ensures { result ≡ [] }
    {
        ChannelTable {
            rows: Vec::new(alloc),
            table: Vec::new(alloc),
        }
    }

    /// One place more, which hears nothing. Takes memory for the channels of one script more.
    pub(crate) fn push(&mut self) -> Result<(), NoMemory>
        ensures pushed { OnOk result (self.new ≡ self.old ++ [] ∷ []) }
        ensures unchanged { OnErr result (self.new ≡ self.old) }
    {
        let places = self.rows.len() + 2;
        self.table.reserve(MOST_CHANNELS * places)?;
        self.rows.push(Channels::new())?;
        Ok(())
    }

    /// Sets the channels on which the script at this place listens. Takes no memory. Each channel that came or went
    /// costs a binary search, and a move of the entries after it.
    pub(crate) fn tell(&mut self, place: usize, channels: Channels)
        requires place { place < length self.old }
        requires few { length channels ≤ most_channels }
        ensures { self.new ≡ slice_set self.old place channels }
    {
        let row = &mut self.rows[place];
        forget_gone(&mut self.table, place, row, &channels);
        note_new(&mut self.table, place, row, &channels);
        *row = channels;
    }

    /// Sets the listens of the script at this place. Takes no memory; walks them. Each channel on which it began or
    /// ceased to listen costs a binary search, and a move of the entries after it.
    pub(crate) fn follow(&mut self, place: usize, listens: &Listens)
        requires { place < length self.old }
        ensures count { length self.new ≡ length self.old }
        ensures others { (other : ℕ) → other ≢ place → get_or self.new other [] ≡ get_or self.old other [] }
        ensures told { (channel : ℤ) →
            has_channel (get_or self.new place []) channel ≡ listens_on channel listens.now }
    {
        if self.knows(place, listens) {
            return;
        }
        self.tell(place, channels_of(listens));
    }

    // Whether the channels of this place are known to be those of these listens. Walks the listens.
    fn knows(&self, place: usize, listens: &Listens) -> bool
        requires { place < length self.now }
        ensures { IsTrue result → (channel : ℤ) →
            has_channel (get_or self.now place []) channel ≡ listens_on channel listens.now }
    {
        are_channels_of(self.rows[place].as_slice(), listens)
    }

    /// The next place from this one on whose script listens on this channel: none between them does. Takes no memory;
    /// a binary search.
    pub(crate) fn next(&self, channel: i32, from: usize) -> usize
        ensures onward { from ≤ result }
        ensures passed { (place : ℕ) → from ≤ place → place < result → is_in_row self.now channel place ≡ false }
        ensures found { IsFound self.now channel result }
    {
        next_heard(&self.table, channel, from)
    }
}

// Removes from the table what the script at this place listened on, and no longer does.
fn forget_gone(table: &mut Vec<ChannelEntry>, place: usize, old: &Channels, new: &Channels)
    requires { IsOrdered table.old.items }
    ensures ordered { IsOrdered table.new.items }
    ensures told { (c : ℤ) → is_heard table.new.items c place ≡
        (is_heard table.old.items c place && (has_channel new.now c || not (has_channel old.now c))) }
    ensures others { (c : ℤ) (p : ℕ) → p ≢ place → is_heard table.new.items c p ≡ is_heard table.old.items c p }
    ensures len { length table.new.items ≤ length table.old.items }
    ensures capacity { vec_capacity table.new ≡ vec_capacity table.old }
{
    for &channel in old.as_slice() {
        if !new.has(channel) {
            forget(table, &ChannelEntry { channel, place });
        }
    }
}

// Adds to the table what it listens on, and didn't before.
fn note_new(table: &mut Vec<ChannelEntry>, place: usize, old: &Channels, new: &Channels)
    requires ordered { IsOrdered table.old.items }
    requires room { length table.old.items + length new.now ≤ vec_capacity table.old }
    ensures ordered { IsOrdered table.new.items }
    ensures told { (c : ℤ) → is_heard table.new.items c place ≡
        (is_heard table.old.items c place || (has_channel new.now c && not (has_channel old.now c))) }
    ensures others { (c : ℤ) (p : ℕ) → p ≢ place → is_heard table.new.items c p ≡ is_heard table.old.items c p }
    ensures capacity { vec_capacity table.old ≤ vec_capacity table.new }
{
    for &channel in new.as_slice() {
        if !old.has(channel) {
            note(table, ChannelEntry { channel, place });
        }
    }
}
