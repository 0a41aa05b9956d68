//! Parameters and arguments, as they are printed between brackets.

ghost use Rattle.std.specs.Prelude.{◌≡◌, ◌++◌, OnOk, map, codes};
ghost use Rattle.bridge_text.specs.Template.{with_commas};
ghost use Rattle.bridge_text.specs.Bridges as bridges;

use crate::declarations::{put_declarations, put_type};
use crate::lengths::{is_marshalled, is_returning};
use edl_grammar::{Declared, FuncDecl};
use std::alloc::{AllocError, Global};

/// Appends the argument of a bridge's call: the copy, or what stands in the copy of the frame.
fn put_argument(out: &mut Vec<u8>, p: &Declared) -> Result<(), AllocError>
    ensures { OnOk result (out.new.items ≡ out.old.items ++ bridges.argument p.now) }
{
    if is_marshalled(p) {
        out.extend_from_slice(b"in_")?;
    } else {
        out.extend_from_slice(b"ms.ms_")?;
    }
    out.extend_from_slice(p.name.bytes())
}

/// Appends the arguments of a bridge's call.
pub(crate) fn put_arguments(out: &mut Vec<u8>, params: &[Declared]) -> Result<(), AllocError>
    ensures { OnOk result (out.new.items ≡ out.old.items ++ with_commas (map bridges.argument params.now)) }
{
    match params {
        [] => Ok(()),
        [param] => put_argument(out, param),
        [param, rest @ ..] => {
            put_argument(out, param)?;
            out.extend_from_slice(b", ")?;
            put_arguments(out, rest)
        }
    }
}

/// Appends the parameters as declared, or `void`.
pub fn put_plain_params(alloc: Global, out: &mut Vec<u8>, f: &FuncDecl) -> Result<(), AllocError>
    ensures { OnOk result (out.new.items ≡ out.old.items ++ bridges.params_or_void (bridges.plain_params f.now)) }
{
    let params = f.params.as_slice();
    if params.is_empty() {
        out.extend_from_slice(b"void")
    } else {
        put_declarations(alloc, out, params)
    }
}

/// Appends the parameter for the return.
pub fn put_return_param(alloc: Global, out: &mut Vec<u8>, f: &FuncDecl) -> Result<(), AllocError>
    ensures { OnOk result (out.new.items ≡ out.old.items ++ bridges.return_text f.now.result) }
{
    put_type(alloc, out, &f.result)?;
    out.extend_from_slice(b"* retval")
}

/// Appends the parameters as declared, with one for the return before them where there is one, or `void`.
pub fn put_all_params(alloc: Global, out: &mut Vec<u8>, f: &FuncDecl) -> Result<(), AllocError>
    ensures { OnOk result (out.new.items ≡ out.old.items ++ bridges.params_or_void (bridges.all_params f.now)) }
{
    if !is_returning(&f.result) {
        return put_plain_params(alloc, out, f);
    }
    put_return_param(alloc, out, f)?;
    let params = f.params.as_slice();
    if params.is_empty() {
        return Ok(());
    }
    out.extend_from_slice(b", ")?;
    put_declarations(alloc, out, params)
}
