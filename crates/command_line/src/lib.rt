//! What the programs share at their edges: the directories of a search path, and the status behind a text.
#![tactic(auto)]

mod search_path;
mod status;

pub use search_path::directories_of;
pub use status::{MEMORY, status_after};
