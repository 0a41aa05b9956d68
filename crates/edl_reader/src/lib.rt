//! The interface of the EDL file of a name and of all that it imports, or why there is none.
#![tactic(auto)]

mod faults;
mod interfaces;
mod sources;

pub use faults::SourceFault;
pub use interfaces::interface_of;
pub use sources::read_edl;
