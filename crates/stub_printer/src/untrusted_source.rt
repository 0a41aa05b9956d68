//! The untrusted source: marshalling structures, bridges of OCALLs, their table, and proxies of ECALLs.

ghost use Rattle.std.specs.Prelude.{◌≡◌, ◌++◌, IfOk, OnOk, flat_map, map};
ghost use Rattle.bridge_text.specs.Template.{with_commas};
ghost use Rattle.stub_printer.specs.Stubs as stubs;

use crate::Options;
use crate::functions::{Sides, ecalls_in, ocalls_in};
use crate::named::{put_of_files, put_plain};
use crate::prototypes::put_entry_head;
use crate::trusted_source::{put_frames, put_table_foot};
use attr_terms::attributes::{is_by_address, is_string};
use bridge_text::lengths::{has_frame, is_returning, put_string_size};
use bridge_text::named::{put_of_function, put_of_param};
use bridge_text::templates::{at, put_lines};
use edl_grammar::{Declared, FuncDecl, Gathered};
use std::alloc::{AllocError, Global};

/// Appends lines that name the files and a function.
fn put_host(
    out: &mut Vec<u8>,
    options: &Options,
    f: &FuncDecl,
    templates: &[&str],
) -> Result<(), AllocError>
    ensures { OnOk result (out.new.items
        ≡ out.old.items ++ stubs.host_lines options.now f.now (map (λ t. t.now) templates.now)) }
{
    put_lines(
        out,
        &[at(b'N', options.name.bytes()), at(b'F', f.name.bytes())],
        templates,
    )
}

/// Appends the argument of a call in the host.
fn put_host_argument(out: &mut Vec<u8>, p: &Declared) -> Result<(), AllocError>
    ensures { OnOk result (out.new.items ≡ out.old.items ++ stubs.host_argument p.now) }
{
    out.extend_from_slice(b"ms->ms_")?;
    out.extend_from_slice(p.name.bytes())
}

/// Appends the arguments of a call in the host.
fn put_host_arguments(out: &mut Vec<u8>, params: &[Declared]) -> Result<(), AllocError>
    ensures { OnOk result (out.new.items ≡ out.old.items ++ with_commas (map stubs.host_argument params.now)) }
{
    match params {
        [] => Ok(()),
        [param] => put_host_argument(out, param),
        [param, rest @ ..] => {
            put_host_argument(out, param)?;
            out.extend_from_slice(b", ")?;
            put_host_arguments(out, rest)
        }
    }
}

/// Appends the frame of a call in the host, where there is one.
#[tactic(auto, unfolding(crate::specs::Stubs::host_frame_lines))]
fn put_host_frame(out: &mut Vec<u8>, f: &FuncDecl) -> Result<(), AllocError>
    ensures { OnOk result (out.new.items ≡ out.old.items ++ stubs.host_frame_lines f.now) }
{
    if has_frame(f) {
        put_of_function(out, f, &["    ms_$F_t* ms = pms;"])
    } else {
        Ok(())
    }
}

/// The call in the host, whose return is kept where there is one.
fn host_call_template(returns: bool) -> &'static str
    ensures { result.now ≡ stubs.host_call_template returns }
{
    if returns {
        "    ms->ms_retval = $F($A);"
    } else {
        "    $F($A);"
    }
}

/// Appends the call in the host.
#[tactic(auto, unfolding(crate::specs::Stubs::host_call_lines))]
fn put_host_call(alloc: Global, out: &mut Vec<u8>, f: &FuncDecl) -> Result<(), AllocError>
    ensures { OnOk result (out.new.items ≡ out.old.items ++ stubs.host_call_lines f.now) }
{
    let mut arguments = Vec::new(alloc);
    put_host_arguments(&mut arguments, f.params.as_slice())?;
    let template = host_call_template(is_returning(&f.result));
    put_lines(
        out,
        &[at(b'F', f.name.bytes()), at(b'A', &arguments)],
        &[template],
    )
}

/// Appends the head of the bridge of an OCALL.
#[tactic(auto, unfolding(crate::specs::Stubs::host_bridge_head))]
fn put_host_bridge_head(
    out: &mut Vec<u8>,
    options: &Options,
    f: &FuncDecl,
) -> Result<(), AllocError>
    ensures { OnOk result (out.new.items ≡ out.old.items ++ stubs.host_bridge_head options.now f.now) }
{
    put_host(
        out,
        options,
        f,
        &["static sgx_status_t $N_$F(void* pms)", "{"],
    )
}

/// Appends the end of the bridge of an OCALL.
#[tactic(auto, unfolding(crate::specs::Stubs::host_bridge_foot))]
fn put_host_bridge_foot(out: &mut Vec<u8>) -> Result<(), AllocError>
    ensures { OnOk result (out.new.items ≡ out.old.items ++ stubs.host_bridge_foot) }
{
    put_plain(out, &["    return SGX_SUCCESS;", "}"])
}

/// Appends the bridge of an OCALL.
fn put_host_bridge(
    alloc: Global,
    out: &mut Vec<u8>,
    options: &Options,
    f: &FuncDecl,
) -> Result<(), AllocError>
    ensures { OnOk result (out.new.items ≡ out.old.items ++ stubs.host_bridge options.now f.now) }
{
    put_host_bridge_head(out, options, f)?;
    put_host_frame(out, f)?;
    put_host_call(alloc, out, f)?;
    put_host_bridge_foot(out)
}

/// Appends the bridges of OCALLs.
fn put_host_bridges(
    alloc: Global,
    out: &mut Vec<u8>,
    options: &Options,
    functions: &[&FuncDecl],
) -> Result<(), AllocError>
    ensures { OnOk result (out.new.items
        ≡ out.old.items ++ flat_map (stubs.host_bridge options.now) (map (λ f. f.now) functions.now)) }
{
    for f in functions {
        put_host_bridge(alloc, out, options, f)?;
    }
    Ok(())
}

/// Appends the row of an OCALL.
fn put_host_row(out: &mut Vec<u8>, options: &Options, f: &FuncDecl) -> Result<(), AllocError>
    ensures { OnOk result (out.new.items ≡ out.old.items ++ stubs.host_row options.now f.now) }
{
    put_host(out, options, f, &["    (void*)$N_$F,"])
}

/// Appends the rows of OCALLs.
fn put_host_rows(
    out: &mut Vec<u8>,
    options: &Options,
    functions: &[&FuncDecl],
) -> Result<(), AllocError>
    ensures { OnOk result (out.new.items
        ≡ out.old.items ++ flat_map (stubs.host_row options.now) (map (λ f. f.now) functions.now)) }
{
    for f in functions {
        put_host_row(out, options, f)?;
    }
    Ok(())
}

/// Appends the head of the table of OCALLs.
#[tactic(auto, unfolding(crate::specs::Stubs::ocall_table_head))]
fn put_ocall_table_head(
    alloc: Global,
    out: &mut Vec<u8>,
    options: &Options,
    ocalls: &[&FuncDecl],
) -> Result<(), AllocError>
    ensures { OnOk result (out.new.items
        ≡ out.old.items ++ stubs.ocall_table_head options.now (map (λ f. f.now) ocalls.now)) }
{
    let count = ocalls.len().to_string(alloc)?;
    put_lines(
        out,
        &[at(b'm', count.as_bytes()), at(b'N', options.name.bytes())],
        &["static const struct { size_t nr_ocall; void* table[$m]; } ocall_table_$N = { $m, {"],
    )
}

/// Appends the table of OCALLs with its rows.
fn put_full_ocall_table(
    alloc: Global,
    out: &mut Vec<u8>,
    options: &Options,
    ocalls: &[&FuncDecl],
) -> Result<(), AllocError>
    ensures { OnOk result (out.new.items
        ≡ out.old.items ++ stubs.full_ocall_table options.now (map (λ f. f.now) ocalls.now)) }
{
    put_ocall_table_head(alloc, out, options, ocalls)?;
    put_host_rows(out, options, ocalls)?;
    put_table_foot(out)
}

/// Appends the table of OCALLs. Without functions it has one entry that is none.
fn put_ocall_table(
    alloc: Global,
    out: &mut Vec<u8>,
    options: &Options,
    ocalls: &[&FuncDecl],
) -> Result<(), AllocError>
    ensures { OnOk result (out.new.items
        ≡ out.old.items ++ stubs.ocall_table options.now (map (λ f. f.now) ocalls.now)) }
{
    if ocalls.is_empty() {
        put_of_files(
            out,
            options,
            &[
                "static const struct { size_t nr_ocall; void* table[1]; } ocall_table_$N = { 0, {",
                "    NULL,",
                "} };",
            ],
        )
    } else {
        put_full_ocall_table(alloc, out, options, ocalls)
    }
}

/// Appends the length of a string that an ECALL is given.
fn put_text_length(alloc: Global, out: &mut Vec<u8>, p: &Declared) -> Result<(), AllocError>
    ensures { OnOk result (out.new.items ≡ out.old.items ++ stubs.text_length_lines p.now) }
{
    let mut size = Vec::new(alloc);
    put_string_size(&mut size, p)?;
    put_lines(
        out,
        &[at(b'P', p.name.bytes()), at(b'S', &size)],
        &["    ms.ms_$P_len = $S;"],
    )
}

/// Appends the length of a parameter that is a string.
fn put_host_text(alloc: Global, out: &mut Vec<u8>, p: &Declared) -> Result<(), AllocError>
    ensures { OnOk result (out.new.items ≡ out.old.items ++ stubs.host_text_lines p.now) }
{
    if is_string(p) {
        put_text_length(alloc, out, p)
    } else {
        Ok(())
    }
}

/// How a field is written in the host.
fn host_field_template(by_address: bool) -> &'static str
    ensures { result.now ≡ stubs.host_field_template by_address }
{
    if by_address {
        "    ms.ms_$P = (void*)$P;"
    } else {
        "    ms.ms_$P = $P;"
    }
}

/// Appends the field of a parameter of an ECALL.
fn put_host_field(alloc: Global, out: &mut Vec<u8>, p: &Declared) -> Result<(), AllocError>
    ensures { OnOk result (out.new.items ≡ out.old.items ++ stubs.host_field_lines p.now) }
{
    let template = host_field_template(is_by_address(p));
    put_of_param(out, p, &[template])?;
    put_host_text(alloc, out, p)
}

/// Appends the fields of an ECALL.
fn put_host_fields(alloc: Global, out: &mut Vec<u8>, f: &FuncDecl) -> Result<(), AllocError>
    ensures { OnOk result (out.new.items ≡ out.old.items ++ flat_map stubs.host_field_lines f.now.params) }
{
    for p in f.params.as_slice() {
        put_host_field(alloc, out, p)?;
    }
    Ok(())
}

/// Appends the frame of an ECALL, where it has one.
#[tactic(auto, unfolding(crate::specs::Stubs::local_frame_lines))]
fn put_local_frame(out: &mut Vec<u8>, f: &FuncDecl) -> Result<(), AllocError>
    ensures { OnOk result (out.new.items ≡ out.old.items ++ stubs.local_frame_lines f.now) }
{
    if has_frame(f) {
        put_of_function(out, f, &["    ms_$F_t ms;"])
    } else {
        Ok(())
    }
}

/// The call into the enclave, with the frame or without one.
fn entry_call_template(has_frame: bool, switchless: bool) -> &'static str
    ensures { result.now ≡ stubs.entry_call_template has_frame switchless }
{
    match (has_frame, switchless) {
        (true, true) => "    status = sgx_ecall_switchless(eid, $O, &ocall_table_$N, &ms);",
        (true, false) => "    status = sgx_ecall(eid, $O, &ocall_table_$N, &ms);",
        (false, true) => "    status = sgx_ecall_switchless(eid, $O, &ocall_table_$N, NULL);",
        (false, false) => "    status = sgx_ecall(eid, $O, &ocall_table_$N, NULL);",
    }
}

/// Appends the call into the enclave.
#[tactic(auto, unfolding(crate::specs::Stubs::entry_call_lines))]
fn put_entry_call(
    alloc: Global,
    out: &mut Vec<u8>,
    options: &Options,
    ordinal: usize,
    f: &FuncDecl,
) -> Result<(), AllocError>
    ensures { OnOk result (out.new.items ≡ out.old.items ++ stubs.entry_call_lines options.now ordinal f.now) }
{
    let number = ordinal.to_string(alloc)?;
    let template = entry_call_template(has_frame(f), f.switchless);
    put_lines(
        out,
        &[at(b'O', number.as_bytes()), at(b'N', options.name.bytes())],
        &[template],
    )
}

/// Appends what hands the return on, where there is one.
#[tactic(auto, unfolding(crate::specs::Stubs::entry_return_lines))]
fn put_entry_return(out: &mut Vec<u8>, f: &FuncDecl) -> Result<(), AllocError>
    ensures { OnOk result (out.new.items ≡ out.old.items ++ stubs.entry_return_lines f.now) }
{
    if is_returning(&f.result) {
        put_of_function(
            out,
            f,
            &["    if (status == SGX_SUCCESS && retval != NULL) *retval = ms.ms_retval;"],
        )
    } else {
        Ok(())
    }
}

/// Appends the head of the untrusted proxy of an ECALL.
#[tactic(auto, unfolding(crate::specs::Stubs::entry_definition))]
fn put_entry_definition(
    alloc: Global,
    out: &mut Vec<u8>,
    options: &Options,
    f: &FuncDecl,
) -> Result<(), AllocError>
    ensures { OnOk result (out.new.items ≡ out.old.items ++ stubs.entry_definition options.now f.now) }
{
    put_entry_head(alloc, out, options, f, "sgx_status_t $X($A)")
}

/// Appends the first lines of the body of an untrusted proxy.
#[tactic(auto, unfolding(crate::specs::Stubs::entry_body))]
fn put_entry_body(out: &mut Vec<u8>, f: &FuncDecl) -> Result<(), AllocError>
    ensures { OnOk result (out.new.items ≡ out.old.items ++ stubs.entry_body f.now) }
{
    put_of_function(out, f, &["{", "    sgx_status_t status;"])
}

/// Appends the last lines of an untrusted proxy.
#[tactic(auto, unfolding(crate::specs::Stubs::entry_foot))]
fn put_entry_foot(out: &mut Vec<u8>, f: &FuncDecl) -> Result<(), AllocError>
    ensures { OnOk result (out.new.items ≡ out.old.items ++ stubs.entry_foot f.now) }
{
    put_of_function(out, f, &["    return status;", "}"])
}

/// Appends the untrusted proxy of an ECALL.
fn put_entry_proxy(
    alloc: Global,
    out: &mut Vec<u8>,
    options: &Options,
    ordinal: usize,
    f: &FuncDecl,
) -> Result<(), AllocError>
    ensures { OnOk result (out.new.items ≡ out.old.items ++ stubs.entry_proxy options.now ordinal f.now) }
{
    put_entry_definition(alloc, out, options, f)?;
    put_entry_body(out, f)?;
    put_local_frame(out, f)?;
    put_host_fields(alloc, out, f)?;
    put_entry_call(alloc, out, options, ordinal, f)?;
    put_entry_return(out, f)?;
    put_entry_foot(out, f)
}

/// Appends the untrusted proxies of ECALLs.
fn put_entry_proxies(
    alloc: Global,
    out: &mut Vec<u8>,
    options: &Options,
    functions: &[&FuncDecl],
) -> Result<(), AllocError>
    ensures { OnOk result (out.new.items ≡ out.old.items
        ++ stubs.each_from 0 (stubs.entry_proxy options.now) (map (λ f. f.now) functions.now)) }
{
    for (ordinal, f) in functions.iter().enumerate() {
        put_entry_proxy(alloc, out, options, ordinal, f)?;
    }
    Ok(())
}

/// Appends the first lines of the untrusted source.
#[tactic(auto, unfolding(crate::specs::Stubs::untrusted_source_head))]
fn put_head(out: &mut Vec<u8>, options: &Options) -> Result<(), AllocError>
    ensures { OnOk result (out.new.items ≡ out.old.items ++ stubs.untrusted_source_head options.now) }
{
    put_of_files(
        out,
        options,
        &["#include \"$N_u.h\"", "#include <string.h>"],
    )
}

/// Appends the untrusted source of these functions.
fn put_source(
    alloc: Global,
    out: &mut Vec<u8>,
    sides: Sides<'_>,
    options: &Options,
) -> Result<(), AllocError>
    ensures { OnOk result (out.new.items ≡ out.old.items ++ stubs.untrusted_source_of
        (map (λ f. f.now) sides.entry.ecalls.now) (map (λ f. f.now) sides.entry.ocalls.now) options.now) }
{
    put_head(out, options)?;
    put_frames(alloc, out, sides)?;
    put_host_bridges(alloc, out, options, sides.ocalls)?;
    put_ocall_table(alloc, out, options, sides.ocalls)?;
    put_entry_proxies(alloc, out, options, sides.ecalls)
}

/// The untrusted source.
pub(crate) fn untrusted_source(
    alloc: Global,
    gathered: &Gathered,
    options: &Options,
) -> Result<Vec<u8>, AllocError>
    ensures { IfOk result (λ v. v.items ≡ stubs.untrusted_source gathered.now options.now) }
{
    let ecalls = ecalls_in(alloc, gathered)?;
    let ocalls = ocalls_in(alloc, gathered)?;
    let sides = Sides {
        ecalls: &ecalls,
        ocalls: &ocalls,
    };
    let mut out = Vec::new(alloc);
    put_source(alloc, &mut out, sides, options)?;
    Ok(out)
}
