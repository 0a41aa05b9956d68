//! What a script does in its blocks: the acts of host threads, handlers and racers, and the bodies.
#![tactic(auto)]

mod acts;
mod body;
mod lines;
mod slots;
mod thread;

pub use acts::Source;
pub use body::bodies;
pub use lines::{BlockLine, block_lines};
pub use slots::handlers;
pub use thread::{racers, threads};
