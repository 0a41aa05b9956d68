//! The lines that programs write where there is a fault.

ghost use Rattle.std.specs.Prelude.{◌≡◌, ◌++◌, IfOk, codes};
ghost use Rattle.sgx_base.specs.Lines.{told_at, told_of_line};
ghost use Rattle.sgx_base.specs.Lines as spec;

use crate::messages::{edl_message, script_message};
use crate::{Fault, Name};
use std::alloc::{AllocError, Global};

fn joined(alloc: Global, first: &[u8], second: &[u8]) -> Result<Vec<u8>, AllocError>
    ensures { IfOk result (λ text. text.items ≡ first.now ++ second.now) }
{
    let mut text = Vec::from_slice(alloc, first)?;
    text.extend_from_slice(second)?;
    Ok(text)
}

/// The line of a fault of the EDL file of this name.
pub fn edl_line(alloc: Global, name: &Name, fault: &Fault) -> Result<Vec<u8>, AllocError>
    ensures { IfOk result (λ text. text.items ≡ spec.edl_line name.now fault.now) }
{
    let line = fault.line;
    let column = fault.column;
    let code = fault.code;
    let message = edl_message(code);
    let told = format!(in alloc; ":{line}:{column}: error E{code}: {message}\n")?;
    joined(alloc, name.bytes(), told.as_bytes())
}

/// The line of a fault of the script of this name.
pub fn script_line(alloc: Global, name: &Name, line: u32, code: u8) -> Result<Vec<u8>, AllocError>
    ensures { IfOk result (λ text. text.items ≡ spec.script_line name.now line code) }
{
    let message = script_message(code);
    let told = format!(in alloc; ":{line}: script S{code}: {message}\n")?;
    joined(alloc, name.bytes(), told.as_bytes())
}

/// A line that ends in a name.
fn name_line(alloc: Global, words: &str, name: &Name) -> Result<Vec<u8>, AllocError>
    ensures { IfOk result (λ text. text.items ≡ words.now ++ (name.now ++ codes "\n")) }
{
    let line = joined(alloc, name.bytes(), b"\n")?;
    joined(alloc, words.as_bytes(), line.as_slice())
}

/// The line where the file of this name could not be read.
pub fn unread_line(alloc: Global, name: &Name) -> Result<Vec<u8>, AllocError>
    ensures { IfOk result (λ text. text.items ≡ spec.unread_line name.now) }
{
    name_line(alloc, "read fault: ", name)
}

/// The line where there is no file of this name.
pub fn missing_line(alloc: Global, name: &Name) -> Result<Vec<u8>, AllocError>
    ensures { IfOk result (λ text. text.items ≡ spec.missing_line name.now) }
{
    name_line(alloc, "not found: ", name)
}
