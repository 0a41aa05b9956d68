//! The instructions of the proxies of OCALLs, as they are printed.

ghost use Rattle.std.specs.Prelude.{◌≡◌, ◌++◌, OnOk};
ghost use Rattle.bridge_text.specs.Bridges as bridges;

use crate::lengths::{has_frame, is_wide, put_count, put_size};
use crate::named::{put_of_function, put_of_param};
use crate::parameters::put_all_params;
use crate::templates::{at, put_lines};
use attr_terms::attributes::has;
use edl_grammar::{Declared, FuncDecl};
use std::alloc::{AllocError, Global};

/// Appends the head of a proxy.
pub(crate) fn put_begin(alloc: Global, out: &mut Vec<u8>, f: &FuncDecl) -> Result<(), AllocError>
    ensures { OnOk result (out.new.items ≡ out.old.items ++ bridges.begin_lines f.now) }
{
    let mut params = Vec::new(alloc);
    put_all_params(alloc, &mut params, f)?;
    put_lines(
        out,
        &[at(b'F', f.name.bytes()), at(b'A', &params)],
        &[
            "sgx_status_t $F($A)",
            "{",
            "    sgx_status_t status = SGX_SUCCESS;",
        ],
    )
}

/// Appends the length of a parameter.
pub(crate) fn put_proxy_length(
    alloc: Global,
    out: &mut Vec<u8>,
    p: &Declared,
) -> Result<(), AllocError>
    ensures { OnOk result (out.new.items ≡ out.old.items ++ bridges.proxy_length_lines p.now) }
{
    let mut size = Vec::new(alloc);
    put_size(alloc, &mut size, false, p)?;
    let mut count = Vec::new(alloc);
    put_count(alloc, &mut count, false, p)?;
    put_lines(
        out,
        &[at(b'P', p.name.bytes()), at(b'S', &size), at(b'C', &count)],
        &[
            "    size_t size_$P = $S;",
            "    size_t count_$P = $C;",
            "    size_t len_$P = size_$P * count_$P;",
            "    if (count_$P != 0 && size_$P > SIZE_MAX / count_$P) return SGX_ERROR_INVALID_PARAMETER;",
        ],
    )
}

/// Appends the field of a parameter that is not copied.
pub(crate) fn put_field(out: &mut Vec<u8>, p: &Declared) -> Result<(), AllocError>
    ensures { OnOk result (out.new.items ≡ out.old.items ++ bridges.field_lines p.now) }
{
    if has(p, b"user_check") {
        put_of_param(out, p, &["    ms->ms_$P = (void*)$P;"])
    } else {
        put_of_param(out, p, &["    ms->ms_$P = $P;"])
    }
}

/// Appends the end of a string that came back.
#[tactic(auto, unfolding(crate::specs::Bridges::back_end_lines))]
fn put_back_end(out: &mut Vec<u8>, p: &Declared) -> Result<(), AllocError>
    ensures { OnOk result (out.new.items ≡ out.old.items ++ bridges.back_end_lines p.now) }
{
    if is_wide(p) {
        put_of_param(
            out,
            p,
            &[
                "    if (status == SGX_SUCCESS && at_$P != NULL) ((wchar_t*)$P)[len_$P / sizeof(wchar_t) - 1] = 0;",
            ],
        )
    } else if has(p, b"string") {
        put_of_param(
            out,
            p,
            &["    if (status == SGX_SUCCESS && at_$P != NULL) ((char*)$P)[len_$P - 1] = 0;"],
        )
    } else {
        Ok(())
    }
}

/// Appends the copy back to the enclave.
pub(crate) fn put_back(out: &mut Vec<u8>, p: &Declared) -> Result<(), AllocError>
    ensures { OnOk result (out.new.items ≡ out.old.items ++ bridges.back_lines p.now) }
{
    put_of_param(
        out,
        p,
        &["    if (status == SGX_SUCCESS && at_$P != NULL) memcpy((void*)$P, at_$P, len_$P);"],
    )?;
    put_back_end(out, p)
}

/// The call into the host, with the frame or without one.
fn enter_template(has_frame: bool, switchless: bool) -> &'static str
    ensures { result.now ≡ bridges.enter_template has_frame switchless }
{
    match (has_frame, switchless) {
        (true, true) => "    status = sgx_ocall_switchless($O, ms);",
        (true, false) => "    status = sgx_ocall($O, ms);",
        (false, true) => "    status = sgx_ocall_switchless($O, NULL);",
        (false, false) => "    status = sgx_ocall($O, NULL);",
    }
}

/// Appends the call into the host.
pub(crate) fn put_enter(
    alloc: Global,
    out: &mut Vec<u8>,
    f: &FuncDecl,
    ordinal: usize,
) -> Result<(), AllocError>
    ensures { OnOk result (out.new.items ≡ out.old.items ++ bridges.enter_lines f.now ordinal) }
{
    let number = ordinal.to_string(alloc)?;
    let template = enter_template(has_frame(f), f.switchless);
    put_lines(out, &[at(b'O', number.as_bytes())], &[template])
}

/// Appends the end of a proxy.
pub(crate) fn put_end_of_proxy(out: &mut Vec<u8>, f: &FuncDecl) -> Result<(), AllocError>
    ensures { OnOk result (out.new.items ≡ out.old.items ++ bridges.proxy_end_lines f.now) }
{
    if has_frame(f) {
        put_of_function(out, f, &["    sgx_ocfree();", "    return status;", "}"])
    } else {
        put_of_function(out, f, &["    return status;", "}"])
    }
}
