//! Strings among bytes, whose units have 1 byte or 4.
ghost use Rattle.std.specs.Prelude.{◌≡◌, ◌≤◌, length, OnOk, IfSome};
ghost use Rattle.sgx_base.specs.Texts.{terminated_length as terminated_length_of};
ghost use Rattle.call_report.specs.Report.{as_copied, put_length as put_length_of};

use edl_interface::Class;
use std::alloc::AllocError;

/// The length up to the first unit 0 and with it, where there is one. There is none of a unit without bytes.
pub(crate) fn terminated_length(bytes: &[u8], unit: u32) -> Option<usize>
    ensures length { result ≡ terminated_length_of unit bytes.now }
    ensures within { IfSome result (λ n. n ≤ length bytes.now) }
{
    if unit == 0 {
        return None;
    }
    sgx_base::terminated_length(bytes, unit)
}

/// Sets the last unit of a string to 0; other bytes stay.
pub(crate) fn end_copied(class: &Class, bytes: &mut Vec<u8>) -> Result<(), AllocError>
    ensures { OnOk result (bytes.new.items ≡ as_copied class.now bytes.old.items) }
{
    if class.is_text() {
        let unit = class.unit() as usize;
        let kept = bytes.len().saturating_sub(unit);
        bytes.truncate(kept);
        bytes.resize(kept + unit, 0)
    } else {
        Ok(())
    }
}

/// How many bytes were put back: of a string those up to its first unit 0.
pub(crate) fn put_length(class: &Class, bytes: &[u8]) -> usize
    ensures length { result ≡ put_length_of class.now bytes.now }
    ensures within { result ≤ length bytes.now }
{
    if class.is_text() {
        terminated_length(bytes, class.unit()).unwrap_or(bytes.len())
    } else {
        bytes.len()
    }
}
