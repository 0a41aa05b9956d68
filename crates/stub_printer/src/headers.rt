//! The two headers.

ghost use Rattle.std.specs.Prelude.{◌≡◌, ◌++◌, IfOk, OnOk, map};
ghost use Rattle.stub_printer.specs.Stubs as stubs;

use crate::Options;
use crate::functions::{Sides, ecalls_in, ocalls_in};
use crate::includes::put_includes;
use crate::named::put_plain;
use crate::prototypes::{put_entry_prototypes, put_plain_prototypes, put_proxy_prototypes};
use bridge_text::templates::{at, put_lines};
use bridge_text::types::put_types;
use edl_grammar::Gathered;
use std::alloc::{AllocError, Global};

/// A byte in capitals, or `_` where it is no letter or digit.
fn guard_byte(byte: u8) -> u8
    ensures { result ≡ stubs.guard_byte byte }
{
    if byte.is_ascii_alphanumeric() {
        byte.to_ascii_uppercase()
    } else {
        b'_'
    }
}

/// A name in capitals, with `_` for each byte that is no letter or digit.
fn guard_name(alloc: Global, name: &[u8]) -> Result<Vec<u8>, AllocError>
    ensures { IfOk result (λ v. v.items ≡ stubs.guard_name name.now) }
{
    let mut guard = Vec::new(alloc);
    for byte in name {
        guard.push(guard_byte(*byte))?;
    }
    Ok(guard)
}

/// Appends the includes of each header.
#[tactic(auto, unfolding(crate::specs::Stubs::standard_includes))]
fn put_standard_includes(out: &mut Vec<u8>) -> Result<(), AllocError>
    ensures { OnOk result (out.new.items ≡ out.old.items ++ stubs.standard_includes) }
{
    put_plain(
        out,
        &[
            "#include <stdint.h>",
            "#include <stddef.h>",
            "#include <wchar.h>",
            "#include \"sgx_edger8r.h\"",
        ],
    )
}

/// Appends what both headers have between their guards and their prototypes.
fn put_front(
    alloc: Global,
    out: &mut Vec<u8>,
    is_trusted: bool,
    gathered: &Gathered,
) -> Result<(), AllocError>
    ensures { OnOk result (out.new.items ≡ out.old.items ++ stubs.header_front is_trusted gathered.now) }
{
    put_standard_includes(out)?;
    put_includes(alloc, out, is_trusted, gathered)?;
    put_types(alloc, out, gathered)
}

/// Appends lines that guard a header.
fn put_guard(
    alloc: Global,
    out: &mut Vec<u8>,
    options: &Options,
    templates: &[&str],
) -> Result<(), AllocError>
    ensures { OnOk result (out.new.items
        ≡ out.old.items ++ stubs.guard_lines options.now (map (λ t. t.now) templates.now)) }
{
    let guard = guard_name(alloc, options.name.bytes())?;
    put_lines(out, &[at(b'G', &guard)], templates)
}

/// Appends the guard of the trusted header.
#[tactic(auto, unfolding(crate::specs::Stubs::trusted_guard))]
fn put_trusted_guard(alloc: Global, out: &mut Vec<u8>, options: &Options) -> Result<(), AllocError>
    ensures { OnOk result (out.new.items ≡ out.old.items ++ stubs.trusted_guard options.now) }
{
    put_guard(alloc, out, options, &["#ifndef $G_T_H", "#define $G_T_H"])
}

/// Appends the guard of the untrusted header.
#[tactic(auto, unfolding(crate::specs::Stubs::untrusted_guard))]
fn put_untrusted_guard(
    alloc: Global,
    out: &mut Vec<u8>,
    options: &Options,
) -> Result<(), AllocError>
    ensures { OnOk result (out.new.items ≡ out.old.items ++ stubs.untrusted_guard options.now) }
{
    put_guard(alloc, out, options, &["#ifndef $G_U_H", "#define $G_U_H"])
}

/// Appends the last line of a header.
#[tactic(auto, unfolding(crate::specs::Stubs::header_foot))]
fn put_header_foot(out: &mut Vec<u8>) -> Result<(), AllocError>
    ensures { OnOk result (out.new.items ≡ out.old.items ++ stubs.header_foot) }
{
    put_plain(out, &["#endif"])
}

/// Appends the trusted header of these functions.
fn put_trusted(
    alloc: Global,
    out: &mut Vec<u8>,
    gathered: &Gathered,
    sides: Sides<'_>,
    options: &Options,
) -> Result<(), AllocError>
    ensures { OnOk result (out.new.items ≡ out.old.items ++ stubs.trusted_header_of
        gathered.now (map (λ f. f.now) sides.entry.ecalls.now) (map (λ f. f.now) sides.entry.ocalls.now)
        options.now) }
{
    put_trusted_guard(alloc, out, options)?;
    put_front(alloc, out, true, gathered)?;
    put_plain_prototypes(alloc, out, sides.ecalls)?;
    put_proxy_prototypes(alloc, out, sides.ocalls)?;
    put_header_foot(out)
}

/// Appends the untrusted header of these functions.
fn put_untrusted(
    alloc: Global,
    out: &mut Vec<u8>,
    gathered: &Gathered,
    sides: Sides<'_>,
    options: &Options,
) -> Result<(), AllocError>
    ensures { OnOk result (out.new.items ≡ out.old.items ++ stubs.untrusted_header_of
        gathered.now (map (λ f. f.now) sides.entry.ecalls.now) (map (λ f. f.now) sides.entry.ocalls.now)
        options.now) }
{
    put_untrusted_guard(alloc, out, options)?;
    put_front(alloc, out, false, gathered)?;
    put_entry_prototypes(alloc, out, options, sides.ecalls)?;
    put_plain_prototypes(alloc, out, sides.ocalls)?;
    put_header_foot(out)
}

/// The trusted header.
pub(crate) fn trusted_header(
    alloc: Global,
    gathered: &Gathered,
    options: &Options,
) -> Result<Vec<u8>, AllocError>
    ensures { IfOk result (λ v. v.items ≡ stubs.trusted_header gathered.now options.now) }
{
    let ecalls = ecalls_in(alloc, gathered)?;
    let ocalls = ocalls_in(alloc, gathered)?;
    let sides = Sides {
        ecalls: &ecalls,
        ocalls: &ocalls,
    };
    let mut out = Vec::new(alloc);
    put_trusted(alloc, &mut out, gathered, sides, options)?;
    Ok(out)
}

/// The untrusted header.
pub(crate) fn untrusted_header(
    alloc: Global,
    gathered: &Gathered,
    options: &Options,
) -> Result<Vec<u8>, AllocError>
    ensures { IfOk result (λ v. v.items ≡ stubs.untrusted_header gathered.now options.now) }
{
    let ecalls = ecalls_in(alloc, gathered)?;
    let ocalls = ocalls_in(alloc, gathered)?;
    let sides = Sides {
        ecalls: &ecalls,
        ocalls: &ocalls,
    };
    let mut out = Vec::new(alloc);
    put_untrusted(alloc, &mut out, gathered, sides, options)?;
    Ok(out)
}
