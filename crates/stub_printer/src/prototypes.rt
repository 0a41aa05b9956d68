//! Prototypes of functions and of their proxies, as they are printed.

ghost use Rattle.std.specs.Prelude.{◌≡◌, ◌++◌, OnOk, flat_map, map};
ghost use Rattle.stub_printer.specs.Stubs as stubs;

use crate::Options;
use bridge_text::declarations::{put_declarations, put_type};
use bridge_text::lengths::is_returning;
use bridge_text::parameters::{put_all_params, put_plain_params, put_return_param};
use bridge_text::templates::{at, put_lines};
use edl_grammar::FuncDecl;
use std::alloc::{AllocError, Global};

/// Appends the prototype of a function as it is declared.
fn put_plain_prototype(alloc: Global, out: &mut Vec<u8>, f: &FuncDecl) -> Result<(), AllocError>
    ensures { OnOk result (out.new.items ≡ out.old.items ++ stubs.plain_prototype f.now) }
{
    let mut returned = Vec::new(alloc);
    put_type(alloc, &mut returned, &f.result)?;
    let mut params = Vec::new(alloc);
    put_plain_params(alloc, &mut params, f)?;
    put_lines(
        out,
        &[
            at(b'R', &returned),
            at(b'F', f.name.bytes()),
            at(b'A', &params),
        ],
        &["$R $F($A);"],
    )
}

/// Appends the prototypes of functions as they are declared.
pub(crate) fn put_plain_prototypes(
    alloc: Global,
    out: &mut Vec<u8>,
    functions: &[&FuncDecl],
) -> Result<(), AllocError>
    ensures { OnOk result (out.new.items
        ≡ out.old.items ++ flat_map stubs.plain_prototype (map (λ f. f.now) functions.now)) }
{
    for f in functions {
        put_plain_prototype(alloc, out, f)?;
    }
    Ok(())
}

/// Appends the prototype of the trusted proxy of an OCALL.
fn put_proxy_prototype(alloc: Global, out: &mut Vec<u8>, f: &FuncDecl) -> Result<(), AllocError>
    ensures { OnOk result (out.new.items ≡ out.old.items ++ stubs.proxy_prototype f.now) }
{
    let mut params = Vec::new(alloc);
    put_all_params(alloc, &mut params, f)?;
    put_lines(
        out,
        &[at(b'F', f.name.bytes()), at(b'A', &params)],
        &["sgx_status_t $F($A);"],
    )
}

/// Appends the prototypes of the trusted proxies of OCALLs.
pub(crate) fn put_proxy_prototypes(
    alloc: Global,
    out: &mut Vec<u8>,
    functions: &[&FuncDecl],
) -> Result<(), AllocError>
    ensures { OnOk result (out.new.items
        ≡ out.old.items ++ flat_map stubs.proxy_prototype (map (λ f. f.now) functions.now)) }
{
    for f in functions {
        put_proxy_prototype(alloc, out, f)?;
    }
    Ok(())
}

/// Appends the name of the untrusted proxy of an ECALL.
fn put_entry_name(out: &mut Vec<u8>, options: &Options, f: &FuncDecl) -> Result<(), AllocError>
    ensures { OnOk result (out.new.items ≡ out.old.items ++ stubs.entry_name options.now f.now) }
{
    if !options.prefix {
        return out.extend_from_slice(f.name.bytes());
    }
    out.extend_from_slice(options.name.bytes())?;
    out.extend_from_slice(b"_")?;
    out.extend_from_slice(f.name.bytes())
}

/// Appends the parameter for the return behind the enclave, where there is one.
fn put_return_behind(alloc: Global, out: &mut Vec<u8>, f: &FuncDecl) -> Result<(), AllocError>
    ensures { OnOk result (out.new.items ≡ out.old.items ++ stubs.return_behind f.now.result) }
{
    if !is_returning(&f.result) {
        return Ok(());
    }
    out.extend_from_slice(b", ")?;
    put_return_param(alloc, out, f)
}

/// Appends the parameters of an ECALL behind the enclave.
fn put_params_behind(alloc: Global, out: &mut Vec<u8>, f: &FuncDecl) -> Result<(), AllocError>
    ensures { OnOk result (out.new.items ≡ out.old.items ++ stubs.params_behind f.now.params) }
{
    let params = f.params.as_slice();
    if params.is_empty() {
        return Ok(());
    }
    out.extend_from_slice(b", ")?;
    put_declarations(alloc, out, params)
}

/// Appends the parameters of the untrusted proxy of an ECALL.
fn put_entry_params(alloc: Global, out: &mut Vec<u8>, f: &FuncDecl) -> Result<(), AllocError>
    ensures { OnOk result (out.new.items ≡ out.old.items ++ stubs.entry_params f.now) }
{
    out.extend_from_slice(b"sgx_enclave_id_t eid")?;
    put_return_behind(alloc, out, f)?;
    put_params_behind(alloc, out, f)
}

/// Appends the head of the untrusted proxy of an ECALL, by a template that ends with or without a semicolon.
#[tactic(auto, unfolding(crate::specs::Stubs::entry_head))]
pub(crate) fn put_entry_head(
    alloc: Global,
    out: &mut Vec<u8>,
    options: &Options,
    f: &FuncDecl,
    template: &str,
) -> Result<(), AllocError>
    ensures { OnOk result (out.new.items ≡ out.old.items ++ stubs.entry_head options.now f.now template.now) }
{
    let mut name = Vec::new(alloc);
    put_entry_name(&mut name, options, f)?;
    let mut params = Vec::new(alloc);
    put_entry_params(alloc, &mut params, f)?;
    put_lines(out, &[at(b'X', &name), at(b'A', &params)], &[template])
}

/// Appends the prototype of the untrusted proxy of an ECALL.
fn put_entry_prototype(
    alloc: Global,
    out: &mut Vec<u8>,
    options: &Options,
    f: &FuncDecl,
) -> Result<(), AllocError>
    ensures { OnOk result (out.new.items ≡ out.old.items ++ stubs.entry_prototype options.now f.now) }
{
    put_entry_head(alloc, out, options, f, "sgx_status_t $X($A);")
}

/// Appends the prototypes of the untrusted proxies of ECALLs.
pub(crate) fn put_entry_prototypes(
    alloc: Global,
    out: &mut Vec<u8>,
    options: &Options,
    functions: &[&FuncDecl],
) -> Result<(), AllocError>
    ensures { OnOk result (out.new.items
        ≡ out.old.items ++ flat_map (stubs.entry_prototype options.now) (map (λ f. f.now) functions.now)) }
{
    for f in functions {
        put_entry_prototype(alloc, out, options, f)?;
    }
    Ok(())
}
