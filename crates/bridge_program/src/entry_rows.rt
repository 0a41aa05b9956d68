//! The rows that refuse an entry before its frame is looked at.
ghost use Rattle.std.specs.Prelude.{◌≡◌};
ghost use Rattle.edl_interface.specs.declared.Interface.{Interface};
ghost use Rattle.sgx_base.specs.Rows.{first_row, unless_refused};
ghost use Rattle.bridge_program.specs.Entry.{entry_rows};
ghost use Rattle.bridge_program.specs.Tables.{bridges_of, MayTry};

use crate::{Bridges, CallStack};
use sgx_base::Status;

/// The status of the first row that refuses an entry, in the interface that the bridges are of.
pub fn entry_check(bridges: &Bridges, stack: &CallStack, ordinal: u32) -> Result<(), Status>
    requires { MayTry bridges.now stack.now }
    ensures { (interface : Interface) → bridges.now ≡ bridges_of interface
        → result ≡ unless_refused (first_row (entry_rows interface stack.now ordinal)) }
{
    let Some(bridge) = bridges.ecalls.get(ordinal as usize) else {
        return Err(Status::INVALID_FUNCTION);
    };
    let allowed = match stack.current_ocall() {
        Some(ocall) => bridges.allows(ocall, ordinal),
        None => !bridge.is_private,
    };
    if !allowed {
        Err(Status::ECALL_NOT_ALLOWED)
    } else if stack.is_full() {
        Err(Status::STACK_OVERRUN)
    } else {
        Ok(())
    }
}
