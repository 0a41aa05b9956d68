//! Entries, OCALLs and what the host does, over an interface and a script.
#![tactic(auto)]

mod acts;
mod admission;
mod arguments;
mod bodies;
mod calls;
mod entry;
mod fields;
mod host;
mod marshalling;
mod ocalls;
mod report_laws;
mod run;
mod strings;
mod tcs;

pub use acts::run_thread;
use bridge_program::Bridges;
use call_script::Script;
pub use calls::{ecall, ocall};
use edl_interface::Interface;
pub use fields::{check_fields, check_frame};
pub use report_laws::one_report_law;
pub use run::{RECORD_LIMIT, RunFault, STEP_LIMIT, first_acts, first_port, first_tcs, run_machine};
pub use tcs::Tcs;

/// An interface with its bridges, and a script for it.
#[derive(Debug, Drop)]
pub struct Machine {
    pub interface: Interface,
    pub bridges: Bridges,
    pub script: Script,
}

/// Asks for a type whose values may be moved to other threads and lent to them.
fn crosses_threads<T: Send + Sync>() {}

/// A machine, with its interface, its bridges and its script, does.
fn machines_cross_threads() {
    crosses_threads::<Machine>();
}
