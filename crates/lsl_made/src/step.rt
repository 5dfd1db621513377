//! The steps of a generated world.

/// One of the two regions.
#[derive(Clone, Copy, PartialEq, Eq)]
pub enum Region {
    A,
    B,
}

/// A step of a generated world. Objects and scripts have one number, since each object has one script.
#[derive(Clone, Copy, PartialEq, Eq)]
pub enum Step {
    /// the object is touched
    Touch(u32),
    /// the clock is at this many milliseconds
    Clock(u32),
    /// the script has this many ticks
    Go(u32, u32),
    /// all scripts have this many ticks
    Run(u32),
    /// the object is sent to the region
    Cross(u32, Region),
    /// scripts pause after each run of this many ticks; 0 ends that
    Pause(u32),
    /// the number is said
    Say(u32),
}

impl Region {
    ghost use Rattle.std.specs.Prelude.{◌≡◌};
    ghost use Rattle.lsl_made.specs.Steps.{region_of};

    /// Where an object is sent in the step at this place, counted from 1. Takes no memory.
    pub(crate) fn of_place(place: u32) -> Region
        ensures { result ≡ region_of place }
    {
        if place % 2 == 0 { Region::B } else { Region::A }
    }
}

impl Step {
    ghost use Rattle.std.specs.Prelude.{◌≡◌, ◌≤◌, ◌/◌};
    ghost use Rattle.lsl_made.specs.Steps.{step_of};

    /// The step at this place, counted from 1, by the number there. Takes no memory.
    pub(crate) fn of_number(place: u32, number: u32) -> Step
        requires { place ≤ 4000 }
        ensures { result ≡ step_of place (number / 65536) }
    {
        let drawn = number / 65_536;
        let object = drawn % 8 + 1;
        match drawn / 8 % 8 {
            0 => Step::Touch(object),
            1 => Step::Clock(500 * place),
            2 => Step::Go(object, drawn / 64 % 40),
            3 => Step::Run(200),
            4 => Step::Cross(object, Region::of_place(place)),
            5 => Step::Pause(drawn / 64 % 5),
            6 => Step::Say(drawn),
            _ => Step::Go(object, 3),
        }
    }
}
