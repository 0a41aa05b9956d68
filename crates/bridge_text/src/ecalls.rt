//! The instructions of the bridges of ECALLs, as they are printed.

ghost use Rattle.std.specs.Prelude.{◌≡◌, ◌++◌, OnOk};
ghost use Rattle.bridge_text.specs.Bridges as bridges;

use crate::declarations::put_type;
use crate::lengths::{is_marshalled, is_returning, is_wide, put_count, put_element, put_size};
use crate::named::{put_of_function, put_of_param};
use crate::parameters::put_arguments;
use crate::templates::{at, put_lines};
use attr_terms::attributes::has;
use edl_grammar::{Declared, FuncDecl};
use std::alloc::{AllocError, Global};

/// Appends the length of a parameter, and the variable of its copy.
pub(crate) fn put_length(alloc: Global, out: &mut Vec<u8>, p: &Declared) -> Result<(), AllocError>
    ensures { OnOk result (out.new.items ≡ out.old.items ++ bridges.length_lines p.now) }
{
    let mut size = Vec::new(alloc);
    put_size(alloc, &mut size, true, p)?;
    let mut count = Vec::new(alloc);
    put_count(alloc, &mut count, true, p)?;
    put_lines(
        out,
        &[at(b'P', p.name.bytes()), at(b'S', &size), at(b'C', &count)],
        &[
            "    size_t size_$P = $S;",
            "    size_t count_$P = $C;",
            "    size_t len_$P = size_$P * count_$P;",
            "    void* in_$P = NULL;",
            "    if (count_$P != 0 && size_$P > SIZE_MAX / count_$P) return SGX_ERROR_INVALID_PARAMETER;",
        ],
    )
}

/// Appends the test that a length is one of whole elements.
pub(crate) fn put_divide(alloc: Global, out: &mut Vec<u8>, p: &Declared) -> Result<(), AllocError>
    ensures { OnOk result (out.new.items ≡ out.old.items ++ bridges.divide_lines p.now) }
{
    let mut element = Vec::new(alloc);
    put_element(alloc, &mut element, true, p)?;
    put_lines(
        out,
        &[at(b'P', p.name.bytes()), at(b'E', &element)],
        &[
            "    if (ms.ms_$P != NULL && len_$P != 0 && len_$P % $E != 0) { status = SGX_ERROR_INVALID_PARAMETER; goto end; }",
        ],
    )
}

/// Appends the end of a string's copy, and the test that it is its first.
pub(crate) fn put_text_end(out: &mut Vec<u8>, p: &Declared) -> Result<(), AllocError>
    ensures { OnOk result (out.new.items ≡ out.old.items ++ bridges.text_end_lines p.now) }
{
    if is_wide(p) {
        put_of_param(
            out,
            p,
            &[
                "    if (in_$P != NULL) {",
                "        ((wchar_t*)in_$P)[len_$P / sizeof(wchar_t) - 1] = 0;",
                "        if (wcslen(in_$P) + 1 != len_$P / sizeof(wchar_t)) { status = SGX_ERROR_UNEXPECTED; goto end; }",
                "    }",
            ],
        )
    } else {
        put_of_param(
            out,
            p,
            &[
                "    if (in_$P != NULL) {",
                "        ((char*)in_$P)[len_$P - 1] = 0;",
                "        if (strlen(in_$P) + 1 != len_$P) { status = SGX_ERROR_UNEXPECTED; goto end; }",
                "    }",
            ],
        )
    }
}

/// Appends the end of a string that is copied back.
#[tactic(auto, unfolding(crate::specs::Bridges::end_lines))]
fn put_end(out: &mut Vec<u8>, p: &Declared) -> Result<(), AllocError>
    ensures { OnOk result (out.new.items ≡ out.old.items ++ bridges.end_lines p.now) }
{
    if is_wide(p) {
        put_of_param(
            out,
            p,
            &[
                "    if (in_$P != NULL) ((wchar_t*)in_$P)[len_$P / sizeof(wchar_t) - 1] = 0;",
                "    if (in_$P != NULL) len_$P = (wcslen(in_$P) + 1) * sizeof(wchar_t);",
            ],
        )
    } else if has(p, b"string") {
        put_of_param(
            out,
            p,
            &[
                "    if (in_$P != NULL) ((char*)in_$P)[len_$P - 1] = 0;",
                "    if (in_$P != NULL) len_$P = strlen(in_$P) + 1;",
            ],
        )
    } else {
        Ok(())
    }
}

/// Appends the copy back to the host.
pub(crate) fn put_copy_out(out: &mut Vec<u8>, p: &Declared) -> Result<(), AllocError>
    ensures { OnOk result (out.new.items ≡ out.old.items ++ bridges.copy_out_lines p.now) }
{
    put_end(out, p)?;
    put_of_param(
        out,
        p,
        &["    if (in_$P != NULL) memcpy(ms.ms_$P, in_$P, len_$P);"],
    )
}

/// Appends the call of a function that returns.
fn put_returning_call(alloc: Global, out: &mut Vec<u8>, f: &FuncDecl) -> Result<(), AllocError>
    ensures { OnOk result (out.new.items ≡ out.old.items ++ bridges.returning_call_lines f.now) }
{
    let mut returned = Vec::new(alloc);
    put_type(alloc, &mut returned, &f.result)?;
    let mut arguments = Vec::new(alloc);
    put_arguments(&mut arguments, f.params.as_slice())?;
    put_lines(
        out,
        &[
            at(b'R', &returned),
            at(b'F', f.name.bytes()),
            at(b'A', &arguments),
        ],
        &["    $R ret = $F($A);"],
    )
}

/// Appends the call of a function that does not return.
fn put_plain_call(alloc: Global, out: &mut Vec<u8>, f: &FuncDecl) -> Result<(), AllocError>
    ensures { OnOk result (out.new.items ≡ out.old.items ++ bridges.plain_call_lines f.now) }
{
    let mut arguments = Vec::new(alloc);
    put_arguments(&mut arguments, f.params.as_slice())?;
    put_lines(
        out,
        &[at(b'F', f.name.bytes()), at(b'A', &arguments)],
        &["    $F($A);"],
    )
}

/// Appends the call of the trusted function.
pub(crate) fn put_call(alloc: Global, out: &mut Vec<u8>, f: &FuncDecl) -> Result<(), AllocError>
    ensures { OnOk result (out.new.items ≡ out.old.items ++ bridges.call_lines f.now) }
{
    if is_returning(&f.result) {
        put_returning_call(alloc, out, f)
    } else {
        put_plain_call(alloc, out, f)
    }
}

/// Appends what gives a parameter's copy up.
fn put_free(out: &mut Vec<u8>, p: &Declared) -> Result<(), AllocError>
    ensures { OnOk result (out.new.items ≡ out.old.items ++ bridges.free_lines p.now) }
{
    if is_marshalled(p) {
        put_of_param(out, p, &["    free(in_$P);"])
    } else {
        Ok(())
    }
}

/// Appends what gives the copies up, the last first.
fn put_frees(out: &mut Vec<u8>, params: &[Declared]) -> Result<(), AllocError>
    ensures { OnOk result (out.new.items ≡ out.old.items ++ bridges.frees params.now) }
{
    match params {
        [] => Ok(()),
        [param, rest @ ..] => {
            put_frees(out, rest)?;
            put_free(out, param)
        }
    }
}

/// Appends the end of a bridge.
pub(crate) fn put_end_of_bridge(out: &mut Vec<u8>, f: &FuncDecl) -> Result<(), AllocError>
    ensures { OnOk result (out.new.items ≡ out.old.items ++ bridges.bridge_end_lines f.now) }
{
    put_of_function(out, f, &["end:"])?;
    put_frees(out, f.params.as_slice())?;
    put_of_function(out, f, &["    return status;", "}"])
}
