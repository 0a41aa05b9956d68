//! The includes of a side, as they are printed.

ghost use Rattle.std.specs.Prelude.{◌≡◌, ℕ, List, [], ◌++◌, IfOk, OnOk, map};
ghost use Rattle.attr_terms.specs.Places.{TellsPlaces};
ghost use Rattle.stub_printer.specs.Stubs as stubs;

use attr_terms::places::Places;
use bridge_text::templates::{at, put_lines};
use edl_grammar::{Gathered, IncludePlace, SourceFile};
use std::alloc::{AllocError, Global};

/// Whether an include of this place is one of the side's file.
fn stands_in(is_trusted: bool, place: IncludePlace) -> bool
    ensures { result ≡ stubs.stands_in is_trusted place }
{
    match place {
        IncludePlace::Outside => true,
        IncludePlace::Trusted => is_trusted,
        IncludePlace::Untrusted => !is_trusted,
    }
}

/// Puts the texts of a file's includes that are of the side to the end.
#[tactic(auto, unfolding(crate::specs::Stubs::file_texts))]
fn push_texts<'a>(
    texts: &mut Vec<&'a [u8]>,
    is_trusted: bool,
    file: &'a SourceFile,
) -> Result<(), AllocError>
    ensures { OnOk result (map (λ t. t.now) texts.new.items
        ≡ map (λ t. t.now) texts.old.items ++ stubs.file_texts is_trusted file.now) }
{
    for include in file.tree.includes.as_slice() {
        if stands_in(is_trusted, include.place) {
            texts.push(include.text.bytes())?;
        }
    }
    Ok(())
}

/// The texts of a side's includes, in order of reading.
fn include_texts<'a>(
    alloc: Global,
    is_trusted: bool,
    gathered: &'a Gathered,
) -> Result<Vec<&'a [u8]>, AllocError>
    ensures { IfOk result (λ v. map (λ t. t.now) v.items ≡ stubs.include_texts is_trusted gathered.now) }
{
    let mut texts = Vec::new(alloc);
    for file in gathered.files.as_slice() {
        push_texts(&mut texts, is_trusted, file)?;
    }
    Ok(texts)
}

/// Appends an include, where its text is none of those before it.
#[tactic(auto, unfolding(crate::specs::Stubs::include_line))]
fn put_include(out: &mut Vec<u8>, before: &Places<'_>, text: &[u8]) -> Result<(), AllocError>
    ensures { (texts : List (List ℕ)) → TellsPlaces before.now texts
        → OnOk result (out.new.items ≡ out.old.items ++ stubs.include_line texts text.now) }
{
    if before.place(text).is_some() {
        Ok(())
    } else {
        put_lines(out, &[at(b'X', text)], &["#include \"$X\""])
    }
}

/// Appends includes of these texts, each text once.
fn put_texts(alloc: Global, out: &mut Vec<u8>, texts: &[&[u8]]) -> Result<(), AllocError>
    ensures { OnOk result (out.new.items ≡ out.old.items ++ stubs.include_lines [] (map (λ t. t.now) texts.now)) }
{
    let mut before = Places::new(alloc);
    for (place, text) in texts.iter().enumerate() {
        put_include(out, &before, text)?;
        before.add(place, text)?;
    }
    Ok(())
}

/// Appends the includes of a side, each text once.
pub(crate) fn put_includes(
    alloc: Global,
    out: &mut Vec<u8>,
    is_trusted: bool,
    gathered: &Gathered,
) -> Result<(), AllocError>
    ensures { OnOk result (out.new.items
        ≡ out.old.items ++ stubs.include_lines [] (stubs.include_texts is_trusted gathered.now)) }
{
    let texts = include_texts(alloc, is_trusted, gathered)?;
    put_texts(alloc, out, &texts)
}
