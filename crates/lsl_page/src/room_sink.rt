//! A sink that writes into a borrowed buffer.
ghost use Rattle.std.specs.Prelude.{◌≡◌, ◌<◌, ◌≤◌, length};
ghost use Rattle.lsl_page.specs.Room.{told_in};

use lsl_ports::{Failed, Sink};

/// A sink that writes straight into a borrowed buffer. It fails only if the buffer is full.
#[derive(Drop)]
pub struct RoomSink<'a> {
    room: &'a mut [u8],
    count: usize,
    faults: u64,
    ghost within: { count ≤ length room.now },
    ghost full: { 0 < faults → length room.now ≤ count },
}

impl<'a> RoomSink<'a> {
    pub fn new(room: &'a mut [u8]) -> RoomSink<'a>
        ensures same_room { result.room.ghost_name ≡ room.entry.ghost_name }
        ensures room { result.room.now ≡ room.old }
        ensures count { result.count ≡ 0 }
        ensures faults { result.faults ≡ 0 }
    {
        RoomSink {
            room,
            count: 0,
            faults: 0,
        }
    }

    /// How many bytes were written.
    pub fn count(&self) -> usize
        ensures { result ≡ self.now.count }
    {
        self.count
    }
}

impl Sink for RoomSink<'_> {
    ghost sunk = { λ s. told_in s.room s.count };

    ghost faults = { λ s. s.faults };

    fn write(&mut self, piece: &[u8]) -> Result<usize, Failed> {
        let left = self.room.len() - self.count;
        if left == 0 && !piece.is_empty() {
            self.faults = self.faults.saturating_add(1);
            return Err(Failed);
        }
        let taken = piece.len().min(left);
        let end = self.count + taken;
        self.room[self.count..end].copy_from_slice(&piece[..taken]);
        self.count = end;
        Ok(taken)
    }
}
