//! An instruction of a bridge, as it is printed.

ghost use Rattle.std.specs.Prelude.{◌≡◌, ◌++◌, OnOk};
ghost use Rattle.bridge_text.specs.Bridges as bridges;

use crate::ecalls::{
    put_call, put_copy_out, put_divide, put_end_of_bridge, put_length, put_text_end,
};
use crate::named::{put_of_function, put_of_param};
use crate::ocalls::{
    put_back, put_begin, put_end_of_proxy, put_enter, put_field, put_proxy_length,
};
use bridge_program::Instr;
use edl_grammar::{Declared, FuncDecl};
use std::alloc::{AllocError, Global};

/// The number of the parameter that an instruction is of.
fn param_of(instr: Instr) -> Option<u32>
    ensures { result ≡ bridges.param_of instr }
{
    match instr {
        Instr::Length(n) => Some(n),
        Instr::Outside(n) => Some(n),
        Instr::Divide(n) => Some(n),
        Instr::Alloc(n) => Some(n),
        Instr::CopyIn(n) => Some(n),
        Instr::Zero(n) => Some(n),
        Instr::TextEnd(n) => Some(n),
        Instr::CopyOut(n) => Some(n),
        Instr::OLength(n) => Some(n),
        Instr::OWithin(n) => Some(n),
        Instr::OAdd(n) => Some(n),
        Instr::OField(n) => Some(n),
        Instr::OBuffer(n) => Some(n),
        Instr::OCopy(n) => Some(n),
        Instr::OBack(n) => Some(n),
        _ => None,
    }
}

/// Appends an instruction of the function.
fn put_function_instr(
    alloc: Global,
    out: &mut Vec<u8>,
    f: &FuncDecl,
    ordinal: usize,
    instr: Instr,
) -> Result<(), AllocError>
    ensures { OnOk result (out.new.items ≡ out.old.items ++ bridges.function_text f.now ordinal instr) }
{
    match instr {
        Instr::Begin => put_of_function(
            out,
            f,
            &[
                "static sgx_status_t sgx_$F(void* pms)",
                "{",
                "    sgx_status_t status = SGX_SUCCESS;",
            ],
        ),
        Instr::NoFrame => put_of_function(
            out,
            f,
            &["    if (pms != NULL) return SGX_ERROR_INVALID_PARAMETER;"],
        ),
        Instr::Frame => put_of_function(
            out,
            f,
            &[
                "    ms_$F_t ms;",
                "    if (pms == NULL || !sgx_is_outside_enclave(pms, sizeof(ms))) return SGX_ERROR_INVALID_PARAMETER;",
                "    sgx_lfence();",
                "    memcpy(&ms, pms, sizeof(ms));",
            ],
        ),
        Instr::Fence => put_of_function(out, f, &["    sgx_lfence();"]),
        Instr::Call => put_call(alloc, out, f),
        Instr::PutReturn => put_of_function(out, f, &["    ((ms_$F_t*)pms)->ms_retval = ret;"]),
        Instr::End => put_end_of_bridge(out, f),
        Instr::OBegin => put_begin(alloc, out, f),
        Instr::OTotal => put_of_function(out, f, &["    size_t total = sizeof(ms_$F_t);"]),
        Instr::OTake => put_of_function(
            out,
            f,
            &[
                "    ms_$F_t* ms = sgx_ocalloc(total);",
                "    if (ms == NULL) { sgx_ocfree(); return SGX_ERROR_UNEXPECTED; }",
                "    memset(ms, 0, total);",
                "    uint8_t* next = (uint8_t*)(ms + 1);",
            ],
        ),
        Instr::OEnter => put_enter(alloc, out, f, ordinal),
        Instr::OReturn => put_of_function(
            out,
            f,
            &["    if (status == SGX_SUCCESS && retval != NULL) *retval = ms->ms_retval;"],
        ),
        Instr::OEnd => put_end_of_proxy(out, f),
        _ => Ok(()),
    }
}

/// Appends an instruction of a parameter.
fn put_param_instr(
    alloc: Global,
    out: &mut Vec<u8>,
    p: &Declared,
    instr: Instr,
) -> Result<(), AllocError>
    ensures { OnOk result (out.new.items ≡ out.old.items ++ bridges.param_text p.now instr) }
{
    match instr {
        Instr::Length(_) => put_length(alloc, out, p),
        Instr::Outside(_) => put_of_param(
            out,
            p,
            &[
                "    if (ms.ms_$P != NULL && !sgx_is_outside_enclave(ms.ms_$P, len_$P)) return SGX_ERROR_INVALID_PARAMETER;",
            ],
        ),
        Instr::Divide(_) => put_divide(alloc, out, p),
        Instr::Alloc(_) => put_of_param(
            out,
            p,
            &[
                "    if (ms.ms_$P != NULL && len_$P != 0 && (in_$P = malloc(len_$P)) == NULL) { status = SGX_ERROR_OUT_OF_MEMORY; goto end; }",
            ],
        ),
        Instr::CopyIn(_) => put_of_param(
            out,
            p,
            &["    if (in_$P != NULL) memcpy(in_$P, ms.ms_$P, len_$P);"],
        ),
        Instr::Zero(_) => put_of_param(
            out,
            p,
            &["    if (in_$P != NULL) memset(in_$P, 0, len_$P);"],
        ),
        Instr::TextEnd(_) => put_text_end(out, p),
        Instr::CopyOut(_) => put_copy_out(out, p),
        Instr::OLength(_) => put_proxy_length(alloc, out, p),
        Instr::OWithin(_) => put_of_param(
            out,
            p,
            &[
                "    if ($P != NULL && !sgx_is_within_enclave($P, len_$P)) return SGX_ERROR_INVALID_PARAMETER;",
            ],
        ),
        Instr::OAdd(_) => put_of_param(
            out,
            p,
            &[
                "    if ($P != NULL) { if (total > SIZE_MAX - len_$P) return SGX_ERROR_INVALID_PARAMETER; total += len_$P; }",
            ],
        ),
        Instr::OField(_) => put_field(out, p),
        Instr::OBuffer(_) => put_of_param(
            out,
            p,
            &[
                "    uint8_t* at_$P = NULL;",
                "    if ($P != NULL && len_$P != 0) { at_$P = next; next += len_$P; }",
                "    ms->ms_$P = (void*)at_$P;",
            ],
        ),
        Instr::OCopy(_) => put_of_param(
            out,
            p,
            &["    if (at_$P != NULL) memcpy(at_$P, $P, len_$P);"],
        ),
        Instr::OBack(_) => put_back(out, p),
        _ => Ok(()),
    }
}

/// Appends an instruction of the function with this ordinal.
fn put_instr(
    alloc: Global,
    out: &mut Vec<u8>,
    f: &FuncDecl,
    ordinal: usize,
    instr: Instr,
) -> Result<(), AllocError>
    ensures { OnOk result (out.new.items ≡ out.old.items ++ bridges.instr_text f.now ordinal instr) }
{
    let Some(number) = param_of(instr) else {
        return put_function_instr(alloc, out, f, ordinal, instr);
    };
    match f.params.get(number as usize) {
        Some(p) => put_param_instr(alloc, out, p, instr),
        None => Ok(()),
    }
}

/// Appends the list of a bridge of the function with this ordinal.
pub fn put_bridge(
    alloc: Global,
    out: &mut Vec<u8>,
    f: &FuncDecl,
    ordinal: usize,
    list: &[Instr],
) -> Result<(), AllocError>
    ensures { OnOk result (out.new.items ≡ out.old.items ++ bridges.list_text f.now ordinal list.now) }
{
    for instr in list {
        put_instr(alloc, out, f, ordinal, *instr)?;
    }
    Ok(())
}
