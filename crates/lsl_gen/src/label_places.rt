//! Labels with their places, and jumps that wait for one.

/// A label and its place.
#[derive(Clone, Copy)]
pub struct LabelPlace {
    pub label: usize,
    pub place: usize,
}

/// A jump at a place, to a label whose place isn't known yet.
#[derive(Clone, Copy)]
pub struct OpenJump {
    pub place: usize,
    pub label: usize,
}
