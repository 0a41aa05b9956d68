//! Racers: participants beside the host threads that write host bytes and do nothing else.
#![tactic(auto)]

mod racer_laws;
mod racers;

pub use racer_laws::{racer_steps_law, racer_writes_law, sound_racers_law};
pub use racers::run_racer;
