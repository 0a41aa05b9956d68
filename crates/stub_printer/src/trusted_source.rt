//! The trusted source: marshalling structures, bridges, tables and proxies.

ghost use Rattle.std.specs.Prelude.{◌≡◌, ◌≤◌, [], ◌++◌, IfOk, OnOk, flat_map, length, map, option_map, unwrap_or};
ghost use Rattle.std.specs.Option.{option_copied};
ghost use Rattle.edl_interface.specs.Sound.{IsSound};
ghost use Rattle.bridge_program.specs.Tables.{bridges_of, list_of};
ghost use Rattle.bridge_text.specs.Bridges.{frame_if_any, list_text};
ghost use Rattle.stub_printer.specs.Stubs.{TellsAllowed};
ghost use Rattle.stub_printer.specs.Stubs as stubs;

use crate::Options;
use crate::functions::{Sides, ecalls_in, ocalls_in};
use crate::named::{put_of_files, put_plain};
use bridge_program::{Bridges, Instr};
use bridge_text::frames::put_frame_if_any;
use bridge_text::instructions::put_bridge;
use bridge_text::templates::{at, put_lines};
use edl_grammar::{FuncDecl, Gathered};
use edl_interface::{Function, Interface};
use std::alloc::{AllocError, Global};

/// Appends the marshalling structures of a side.
fn put_side_frames(
    alloc: Global,
    out: &mut Vec<u8>,
    is_trusted: bool,
    functions: &[&FuncDecl],
) -> Result<(), AllocError>
    ensures { OnOk result (out.new.items
        ≡ out.old.items ++ flat_map (frame_if_any is_trusted) (map (λ f. f.now) functions.now)) }
{
    for f in functions {
        put_frame_if_any(alloc, out, is_trusted, f)?;
    }
    Ok(())
}

/// Appends the marshalling structures of ECALLs, and then of OCALLs.
pub(crate) fn put_frames(
    alloc: Global,
    out: &mut Vec<u8>,
    sides: Sides<'_>,
) -> Result<(), AllocError>
    ensures { OnOk result (out.new.items ≡ out.old.items
        ++ stubs.frames (map (λ f. f.now) sides.entry.ecalls.now) (map (λ f. f.now) sides.entry.ocalls.now)) }
{
    put_side_frames(alloc, out, true, sides.ecalls)?;
    put_side_frames(alloc, out, false, sides.ocalls)
}

/// How many functions the interface has on a side.
fn count(interface: &Interface, is_trusted: bool) -> usize
    ensures { result ≡ length (stubs.side interface.now is_trusted) }
{
    if is_trusted {
        interface.ecalls.len()
    } else {
        interface.ocalls.len()
    }
}

/// The instructions that the tables have at an ordinal.
#[tactic(auto, using(crate::proofs::TableLaws::listed, crate::proofs::TableLaws::unlisted))]
fn list_at<'a>(
    bridges: &'a Bridges,
    interface: &Interface,
    is_trusted: bool,
    ordinal: usize,
) -> Option<&'a [Instr]>
    requires tables { bridges.now ≡ bridges_of interface.now }
    requires few { length (stubs.side interface.now is_trusted) ≤ 1024 }
    ensures { option_copied result ≡ list_of bridges.now is_trusted ordinal }
{
    if ordinal < count(interface, is_trusted) {
        Some(bridges.list(is_trusted, ordinal as u32))
    } else {
        None
    }
}

/// Appends the bridge of a function, where the tables have one.
fn put_listed(
    alloc: Global,
    out: &mut Vec<u8>,
    f: &FuncDecl,
    ordinal: usize,
    list: Option<&[Instr]>,
) -> Result<(), AllocError>
    ensures { OnOk result (out.new.items ≡ out.old.items
        ++ unwrap_or (option_map (list_text f.now ordinal) (option_copied list.entry)) []) }
{
    match list {
        Some(list) => put_bridge(alloc, out, f, ordinal, list),
        None => Ok(()),
    }
}

/// Appends the bridges of a side.
fn put_bridges(
    alloc: Global,
    out: &mut Vec<u8>,
    bridges: &Bridges,
    interface: &Interface,
    is_trusted: bool,
    functions: &[&FuncDecl],
) -> Result<(), AllocError>
    requires tables { bridges.now ≡ bridges_of interface.now }
    requires few { length (stubs.side interface.now is_trusted) ≤ 1024 }
    ensures { OnOk result (out.new.items ≡ out.old.items
        ++ stubs.each_from 0 (stubs.listed_text bridges.now is_trusted) (map (λ f. f.now) functions.now)) }
{
    for (ordinal, f) in functions.iter().enumerate() {
        let list = list_at(bridges, interface, is_trusted, ordinal);
        put_listed(alloc, out, f, ordinal, list)?;
    }
    Ok(())
}

/// A digit for whether something holds.
#[tactic(auto, unfolding(crate::specs::Stubs::flag))]
fn flag(holds: bool) -> &'static [u8]
    ensures { result.now ≡ stubs.flag holds }
{
    if holds { b"1" } else { b"0" }
}

/// Appends the row of an ECALL.
fn put_call_row(out: &mut Vec<u8>, f: &FuncDecl) -> Result<(), AllocError>
    ensures { OnOk result (out.new.items ≡ out.old.items ++ stubs.call_row f.now) }
{
    put_lines(
        out,
        &[
            at(b'F', f.name.bytes()),
            at(b'p', flag(!f.is_public)),
            at(b's', flag(f.switchless)),
        ],
        &["    { (void*)sgx_$F, $p, $s },"],
    )
}

/// Appends the rows of ECALLs.
fn put_call_rows(out: &mut Vec<u8>, functions: &[&FuncDecl]) -> Result<(), AllocError>
    ensures { OnOk result (out.new.items ≡ out.old.items ++ flat_map stubs.call_row (map (λ f. f.now) functions.now)) }
{
    for f in functions {
        put_call_row(out, f)?;
    }
    Ok(())
}

/// Appends the head of the table of ECALLs.
#[tactic(auto, unfolding(crate::specs::Stubs::call_table_head))]
fn put_call_table_head(
    alloc: Global,
    out: &mut Vec<u8>,
    ecalls: &[&FuncDecl],
) -> Result<(), AllocError>
    ensures { OnOk result (out.new.items ≡ out.old.items ++ stubs.call_table_head (map (λ f. f.now) ecalls.now)) }
{
    let count = ecalls.len().to_string(alloc)?;
    put_lines(
        out,
        &[at(b'n', count.as_bytes())],
        &[
            "const struct { size_t nr_ecall; struct { void* call; uint8_t is_priv; uint8_t is_switchless; } table[$n]; } g_ecall_table = { $n, {",
        ],
    )
}

/// Appends the last line of a table.
#[tactic(auto, unfolding(crate::specs::Stubs::table_foot))]
pub(crate) fn put_table_foot(out: &mut Vec<u8>) -> Result<(), AllocError>
    ensures { OnOk result (out.new.items ≡ out.old.items ++ stubs.table_foot) }
{
    put_plain(out, &["} };"])
}

/// Appends the table of ECALLs with its rows.
fn put_full_call_table(
    alloc: Global,
    out: &mut Vec<u8>,
    ecalls: &[&FuncDecl],
) -> Result<(), AllocError>
    ensures { OnOk result (out.new.items ≡ out.old.items ++ stubs.full_call_table (map (λ f. f.now) ecalls.now)) }
{
    put_call_table_head(alloc, out, ecalls)?;
    put_call_rows(out, ecalls)?;
    put_table_foot(out)
}

/// Appends the table of ECALLs.
fn put_call_table(alloc: Global, out: &mut Vec<u8>, ecalls: &[&FuncDecl]) -> Result<(), AllocError>
    ensures { OnOk result (out.new.items ≡ out.old.items ++ stubs.call_table (map (λ f. f.now) ecalls.now)) }
{
    if ecalls.is_empty() {
        put_plain(
            out,
            &["const struct { size_t nr_ecall; } g_ecall_table = { 0 };"],
        )
    } else {
        put_full_call_table(alloc, out, ecalls)
    }
}

/// Of each of so many ECALLs, whether its ordinal is among those that are allowed.
fn allowed_row(alloc: Global, allow: &[u32], count: usize) -> Result<Vec<bool>, AllocError>
    ensures { IfOk result (λ row. TellsAllowed count allow.now row.items) }
{
    let mut row = Vec::new(alloc);
    row.resize(count, false)?;
    for ordinal in allow {
        let place = *ordinal as usize;
        if place < count {
            row[place] = true;
        }
    }
    Ok(row)
}

/// A digit for whether something holds, and a comma behind it.
#[tactic(auto, unfolding(crate::specs::Stubs::flag))]
fn flag_text(holds: bool) -> &'static [u8]
    ensures { result.now ≡ stubs.flag_text holds }
{
    if holds { b"1, " } else { b"0, " }
}

/// Appends a digit for each of these, and a comma behind it.
fn put_flags(out: &mut Vec<u8>, row: &[bool]) -> Result<(), AllocError>
    ensures { OnOk result (out.new.items ≡ out.old.items ++ flat_map stubs.flag_text row.now) }
{
    for holds in row {
        out.extend_from_slice(flag_text(*holds))?;
    }
    Ok(())
}

/// Appends which of so many ECALLs an OCALL allows.
fn put_allow_flags(
    alloc: Global,
    out: &mut Vec<u8>,
    allow: &[u32],
    ecalls: &[&FuncDecl],
) -> Result<(), AllocError>
    ensures { OnOk result (out.new.items ≡ out.old.items
        ++ stubs.allow_flags allow.now (map (λ f. f.now) ecalls.now)) }
{
    let row = allowed_row(alloc, allow, ecalls.len())?;
    put_flags(out, &row)
}

/// Appends the row of an OCALL.
fn put_entry_row(
    alloc: Global,
    out: &mut Vec<u8>,
    ecalls: &[&FuncDecl],
    f: &Function,
) -> Result<(), AllocError>
    ensures { OnOk result (out.new.items ≡ out.old.items ++ stubs.entry_row (map (λ f. f.now) ecalls.now) f.now) }
{
    let mut flags = Vec::new(alloc);
    put_allow_flags(alloc, &mut flags, f.allow.as_slice(), ecalls)?;
    put_lines(out, &[at(b'X', &flags)], &["    { $X},"])
}

/// Appends the rows of OCALLs.
fn put_entry_rows(
    alloc: Global,
    out: &mut Vec<u8>,
    ecalls: &[&FuncDecl],
    interface: &Interface,
) -> Result<(), AllocError>
    ensures { OnOk result (out.new.items
        ≡ out.old.items ++ flat_map (stubs.entry_row (map (λ f. f.now) ecalls.now)) interface.now.ocalls) }
{
    for f in interface.ocalls.as_slice() {
        put_entry_row(alloc, out, ecalls, f)?;
    }
    Ok(())
}

/// Appends the table of entries without rows.
fn put_bare_entry_table(
    alloc: Global,
    out: &mut Vec<u8>,
    ocalls: &[&FuncDecl],
) -> Result<(), AllocError>
    ensures { OnOk result (out.new.items ≡ out.old.items ++ stubs.bare_entry_table (map (λ f. f.now) ocalls.now)) }
{
    let count = ocalls.len().to_string(alloc)?;
    put_lines(
        out,
        &[at(b'm', count.as_bytes())],
        &["const struct { size_t nr_ocall; } g_dyn_entry_table = { $m };"],
    )
}

/// Appends the head of the table of entries.
#[tactic(auto, unfolding(crate::specs::Stubs::entry_table_head))]
fn put_entry_table_head(
    alloc: Global,
    out: &mut Vec<u8>,
    sides: Sides<'_>,
) -> Result<(), AllocError>
    ensures { OnOk result (out.new.items ≡ out.old.items ++ stubs.entry_table_head
        (map (λ f. f.now) sides.entry.ecalls.now) (map (λ f. f.now) sides.entry.ocalls.now)) }
{
    let ocalls = sides.ocalls.len().to_string(alloc)?;
    let ecalls = sides.ecalls.len().to_string(alloc)?;
    put_lines(
        out,
        &[at(b'm', ocalls.as_bytes()), at(b'n', ecalls.as_bytes())],
        &[
            "const struct { size_t nr_ocall; uint8_t entry_table[$m][$n]; } g_dyn_entry_table = { $m, {",
        ],
    )
}

/// Appends the table of entries with its rows.
fn put_full_entry_table(
    alloc: Global,
    out: &mut Vec<u8>,
    sides: Sides<'_>,
    interface: &Interface,
) -> Result<(), AllocError>
    ensures { OnOk result (out.new.items ≡ out.old.items ++ stubs.full_entry_table
        (map (λ f. f.now) sides.entry.ecalls.now) (map (λ f. f.now) sides.entry.ocalls.now) interface.now.ocalls) }
{
    put_entry_table_head(alloc, out, sides)?;
    put_entry_rows(alloc, out, sides.ecalls, interface)?;
    put_table_foot(out)
}

/// Appends the table of entries.
fn put_entry_table(
    alloc: Global,
    out: &mut Vec<u8>,
    sides: Sides<'_>,
    interface: &Interface,
) -> Result<(), AllocError>
    ensures { OnOk result (out.new.items ≡ out.old.items ++ stubs.entry_table
        (map (λ f. f.now) sides.entry.ecalls.now) (map (λ f. f.now) sides.entry.ocalls.now) interface.now.ocalls) }
{
    if sides.ecalls.is_empty() || sides.ocalls.is_empty() {
        put_bare_entry_table(alloc, out, sides.ocalls)
    } else {
        put_full_entry_table(alloc, out, sides, interface)
    }
}

/// Appends the first lines of the trusted source.
#[tactic(auto, unfolding(crate::specs::Stubs::trusted_source_head))]
fn put_head(out: &mut Vec<u8>, options: &Options) -> Result<(), AllocError>
    ensures { OnOk result (out.new.items ≡ out.old.items ++ stubs.trusted_source_head options.now) }
{
    put_of_files(
        out,
        options,
        &[
            "#include \"$N_t.h\"",
            "#include <stdlib.h>",
            "#include <string.h>",
            "#include \"sgx_trts.h\"",
            "#include \"sgx_lfence.h\"",
        ],
    )
}

/// Appends the trusted source of these functions.
fn put_source(
    alloc: Global,
    out: &mut Vec<u8>,
    bridges: &Bridges,
    sides: Sides<'_>,
    interface: &Interface,
    options: &Options,
) -> Result<(), AllocError>
    requires tables { bridges.now ≡ bridges_of interface.now }
    requires sound { IsSound interface.now }
    ensures { OnOk result (out.new.items ≡ out.old.items ++ stubs.trusted_source_of
        (map (λ f. f.now) sides.entry.ecalls.now) (map (λ f. f.now) sides.entry.ocalls.now)
        bridges.now interface.now.ocalls options.now) }
{
    put_head(out, options)?;
    put_frames(alloc, out, sides)?;
    put_bridges(alloc, out, bridges, interface, true, sides.ecalls)?;
    put_call_table(alloc, out, sides.ecalls)?;
    put_entry_table(alloc, out, sides, interface)?;
    put_bridges(alloc, out, bridges, interface, false, sides.ocalls)
}

/// The trusted source.
pub(crate) fn trusted_source(
    alloc: Global,
    bridges: &Bridges,
    gathered: &Gathered,
    interface: &Interface,
    options: &Options,
) -> Result<Vec<u8>, AllocError>
    requires tables { bridges.now ≡ bridges_of interface.now }
    requires sound { IsSound interface.now }
    ensures { IfOk result (λ v. v.items ≡ stubs.trusted_source gathered.now interface.now options.now) }
{
    let ecalls = ecalls_in(alloc, gathered)?;
    let ocalls = ocalls_in(alloc, gathered)?;
    let sides = Sides {
        ecalls: &ecalls,
        ocalls: &ocalls,
    };
    let mut out = Vec::new(alloc);
    put_source(alloc, &mut out, bridges, sides, interface, options)?;
    Ok(out)
}
