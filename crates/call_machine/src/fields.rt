//! What is checked of an entry: its frame's address before it is loaded, and the fields in the frame's one copy.

ghost use Rattle.std.specs.Prelude.{◌≡◌};
ghost use Rattle.std.specs.List.{list_any};
ghost use Rattle.sgx_base.specs.Rows.{first_row, unless_refused};
ghost use Rattle.edl_interface.specs.Parameters.{marshalled};
ghost use Rattle.call_machine.specs.Refusal.{is_overlong, is_off_host, frame_rows, field_rows};

use edl_interface::{Function, Param};
use sgx_base::{Status, host_range};

/// Whether the function may be entered with a frame at this address, in a host memory of so many bytes.
pub fn check_frame(function: &Function, host: u32, address: u64) -> Result<(), Status>
    ensures { result ≡ unless_refused (first_row (frame_rows host function.now address)) }
{
    let allowed = if function.has_frame() {
        address != 0 && host_range(host, address, u64::from(function.frame_size))
    } else {
        address == 0
    };
    if allowed {
        Ok(())
    } else {
        Err(Status::INVALID_PARAMETER)
    }
}

/// Whether a parameter's length is above 2^64 - 1.
fn is_too_long(function: &Function, frame: &[u8], param: &Param) -> bool
    ensures { result ≡ is_overlong function.now frame.now param.now }
{
    function.length(frame, param).is_none()
}

/// Whether a parameter's pointer is not null and its range may not be read and written as host memory.
fn is_misplaced(function: &Function, host: u32, frame: &[u8], param: &Param) -> bool
    ensures { result ≡ is_off_host host function.now frame.now param.now }
{
    let address = param.address(frame);
    if address == 0 {
        return false;
    }
    match function.length(frame, param) {
        Some(length) => !host_range(host, address, length),
        None => true,
    }
}

/// Whether the length of some parameter that is copied is above 2^64 - 1.
fn has_too_long(function: &Function, frame: &[u8]) -> bool
    ensures { result ≡ list_any (is_overlong function.now frame.now) (marshalled function.now) }
{
    let params = function.params.as_slice().iter();
    params
        .filter(|param| param.class.is_marshalled())
        .any(|param| is_too_long(function, frame, param))
}

/// Whether some parameter that is copied is misplaced.
fn has_misplaced(function: &Function, host: u32, frame: &[u8]) -> bool
    ensures { result ≡ list_any (is_off_host host function.now frame.now) (marshalled function.now) }
{
    let params = function.params.as_slice().iter();
    params
        .filter(|param| param.class.is_marshalled())
        .any(|param| is_misplaced(function, host, frame, param))
}

/// Whether the fields of the frame's copy allow the entry: no length is too large, and each pointer is null or its
/// range is one of host memory.
pub fn check_fields(function: &Function, host: u32, frame: &[u8]) -> Result<(), Status>
    ensures { result ≡ unless_refused (first_row (field_rows host function.now frame.now)) }
{
    if has_too_long(function, frame) {
        return Err(Status::INVALID_PARAMETER);
    }
    if has_misplaced(function, host, frame) {
        return Err(Status::INVALID_PARAMETER);
    }
    Ok(())
}
