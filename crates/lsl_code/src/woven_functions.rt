//! The code of woven functions.

use crate::functions::Point;
use crate::instructions::Instr;
use crate::sequence::Sequence;
use lsl_compact::PlacedStacks;
use lsl_value::{Kind, Text};

/// A function's code with code that saves and restores its calls. `running` has, per instruction, the kinds of the
/// operands before it, from the first pushed, while the machine runs, and none where a running machine never is. The
/// others are as in `FunctionCode`. While it saves and restores, the kinds follow from the code: `specs/` has them as
/// `saving_of` and `restoring_of`.
#[derive(Drop)]
pub struct WovenCode {
    pub name: Text,
    pub params: Sequence<Kind>,
    pub slots: Sequence<Kind>,
    pub result: Option<Kind>,
    pub most: u32,
    pub points: Sequence<Point>,
    pub lines: Sequence<u32>,
    pub code: Sequence<Instr>,
    pub running: PlacedStacks,
}
