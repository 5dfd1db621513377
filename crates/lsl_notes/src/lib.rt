//! Notecards: the lines of a card, the cards of a world, what a script receives of them, and the keys of its queries.
#![tactic(auto)]

mod card;
mod cards;
mod cutting;
mod faults;
pub mod laws;
mod page;
mod places;
mod queries;
mod reading;

pub use crate::card::Card;
pub use crate::cards::{Cards, Notecard};
pub use crate::faults::CardFault;
pub use crate::queries::query;
pub use crate::reading::read_card;
