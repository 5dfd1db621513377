//! What the parts of a world don't have, and its files do.

use lsl_code::Sequence;
use lsl_value::Text;

/// Names in the order of what they name.
pub type NameList = Sequence<Text>;

/// The names of a world's scripts, by their numbers, and of the globals of each unit.
#[derive(Drop)]
pub struct Names {
    pub scripts: NameList,
    pub globals: Sequence<NameList>,
}
