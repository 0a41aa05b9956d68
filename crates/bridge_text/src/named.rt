//! Lines that name a parameter or a function.

ghost use Rattle.std.specs.Prelude.{◌≡◌, ◌++◌, OnOk, map};
ghost use Rattle.bridge_text.specs.Bridges.{param_lines, function_lines};

use crate::templates::{at, put_lines};
use edl_grammar::{Declared, FuncDecl};
use std::alloc::AllocError;

/// Appends lines that name a parameter.
pub fn put_of_param(out: &mut Vec<u8>, p: &Declared, templates: &[&str]) -> Result<(), AllocError>
    ensures { OnOk result (out.new.items
        ≡ out.old.items ++ param_lines p.now (map (λ t. t.now) templates.now)) }
{
    put_lines(out, &[at(b'P', p.name.bytes())], templates)
}

/// Appends lines that name the function.
pub fn put_of_function(
    out: &mut Vec<u8>,
    f: &FuncDecl,
    templates: &[&str],
) -> Result<(), AllocError>
    ensures { OnOk result (out.new.items
        ≡ out.old.items ++ function_lines f.now (map (λ t. t.now) templates.now)) }
{
    put_lines(out, &[at(b'F', f.name.bytes())], templates)
}
