//! The first reading of a script: its foreign types.

ghost use Rattle.std.specs.Prelude.{◌≡◌, ◌≤◌, length, false, IfOk, option_map};
ghost use Rattle.sgx_base.specs.Stores.{max_file_size};
ghost use Rattle.call_script.specs.Line.{Foreign};
ghost use Rattle.call_script.specs.Faults.{has_number_out_of_range};
ghost use Rattle.call_script.specs.Reading.{Reads};
ghost use Rattle.script_lines.specs.Lines as lines;
ghost use Rattle.script_reader.specs.Foreign as spec;

use call_script::ScriptFault;
use edl_layout::{ForeignType, ForeignTypes};
use script_lines::{Line, Scope, line_in};
use script_rules::is_alignment;
use script_words::{NumberedLines, Words, is_out_of, number_of, same};
use sgx_base::Name;
use sqlite_items::Items;
use std::alloc::{AllocError, Global};

fn has_number_out_of_range(name: &[u8], size: &[u8], alignment: &[u8]) -> bool
    ensures { result ≡ has_number_out_of_range (Foreign name.now size.now alignment.now) }
{
    is_out_of(1, 65536, size) || !is_alignment(number_of(alignment))
}

fn is_declared(types: &[ForeignType], name: &[u8]) -> bool
    ensures { result ≡ spec.is_declared types.now name.now }
{
    types
        .iter()
        .any(|declared| same(name, declared.name.bytes()))
}

/// The type that a line with numbers in range declares.
fn type_of(
    alloc: Global,
    name: &[u8],
    size: &[u8],
    alignment: &[u8],
) -> Result<ForeignType, AllocError>
    requires { has_number_out_of_range (Foreign name.now size.now alignment.now) ≡ false }
    ensures { IfOk result (λ t. t ≡ spec.type_named name.now size.now alignment.now) }
{
    Ok(ForeignType {
        name: Name::new(alloc, name)?,
        size: number_of(size) as u32,
        align: number_of(alignment) as u32,
    })
}

/// What the words are outside of all blocks.
fn line_outside<'a>(words: &mut Words<'a>) -> Option<Line<'a>>
    ensures { option_map lines.line_of result ≡ spec.line_outside words.old }
{
    line_in(Scope::Outside, words)
}

/// The types with the one that a line of these words declares.
#[tactic(auto, using(crate::proofs::ForeignLaws::no_line, crate::proofs::ForeignLaws::out_of_range, crate::proofs::ForeignLaws::twice, crate::proofs::ForeignLaws::one_more))]
fn with_declared(
    alloc: Global,
    types: Items<ForeignType>,
    line: u32,
    words: &mut Words,
) -> Result<Items<ForeignType>, ScriptFault>
    ensures { Reads (spec.declared types line (spec.line_outside words.old)) result }
{
    let Some(
        Line::Foreign {
            name,
            size,
            alignment,
        },
    ) = line_outside(words)
    else {
        return Err(ScriptFault::Rule { line, code: 1 });
    };
    if has_number_out_of_range(name, size, alignment) {
        return Err(ScriptFault::Rule { line, code: 2 });
    }
    if is_declared(types.as_slice(), name) {
        return Err(ScriptFault::Rule { line, code: 11 });
    }
    let mut types = types;
    types.push(type_of(alloc, name, size, alignment)?)?;
    Ok(types)
}

/// The types behind a line of these words.
#[tactic(auto, using(crate::proofs::ForeignLaws::blank, crate::proofs::ForeignLaws::other_line, crate::proofs::ForeignLaws::foreign_words))]
fn types_after(
    alloc: Global,
    types: Items<ForeignType>,
    line: u32,
    words: &mut Words,
) -> Result<Items<ForeignType>, ScriptFault>
    ensures { Reads (spec.types_after types line words.old) result }
{
    match words.again().next() {
        Some(word) if same(word, b"foreign") => with_declared(alloc, types, line, words),
        _ => Ok(types),
    }
}

#[tactic(auto, using(crate::proofs::ForeignLaws::turn, crate::proofs::ForeignLaws::stop, crate::proofs::ForeignLaws::end))]
pub fn read(alloc: Global, bytes: &[u8]) -> Result<ForeignTypes, ScriptFault>
    requires { length bytes.now ≤ max_file_size }
    ensures { Reads (spec.foreign_types bytes.now) result }
{
    let mut types = Items::new(alloc);
    let mut lines = NumberedLines::new(bytes);
    while let Some(mut line) = lines.next() {
        types = match types_after(alloc, types, line.number, &mut line.words) {
            Ok(types) => types,
            Err(fault) => return Err(fault),
        };
    }
    Ok(ForeignTypes {
        types,
        lenient: false,
    })
}
