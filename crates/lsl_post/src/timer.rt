//! A script's timer.

ghost use Rattle.std.specs.Prelude.{IsTrue};
ghost use Rattle.lsl_post.specs.Timing.{fits_timer};

/// A timer: its period in seconds, and when it is next due in milliseconds of the clock. Both are 0 where it
/// doesn't run.
#[derive(Clone, Copy, Drop)]
pub struct Timer {
    pub period: u32,
    pub due: u64,
    pub ghost fits: { IsTrue (fits_timer period due) },
}
