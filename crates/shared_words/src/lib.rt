//! Words that threads share, and the one legal history of all their steps.
#![tactic(auto)]

mod accesses;
mod bound;
mod history_laws;
mod rule;
mod seats;

pub use bound::Bound;
pub use history_laws::{own_write_law, won_twice_law};
pub use seats::{SharedWords, WordSeat, finish, join, make, split};
