//! Lines without a place, and lines that name the files.

ghost use Rattle.std.specs.Prelude.{◌≡◌, ◌++◌, OnOk, map};
ghost use Rattle.stub_printer.specs.Stubs.{plain_lines, file_lines};

use crate::Options;
use bridge_text::templates::{at, put_lines};
use std::alloc::AllocError;

/// Appends lines without a place.
pub(crate) fn put_plain(out: &mut Vec<u8>, templates: &[&str]) -> Result<(), AllocError>
    ensures { OnOk result (out.new.items ≡ out.old.items ++ plain_lines (map (λ t. t.now) templates.now)) }
{
    put_lines(out, &[], templates)
}

/// Appends lines that name the files.
pub(crate) fn put_of_files(
    out: &mut Vec<u8>,
    options: &Options,
    templates: &[&str],
) -> Result<(), AllocError>
    ensures { OnOk result (out.new.items
        ≡ out.old.items ++ file_lines options.now (map (λ t. t.now) templates.now)) }
{
    put_lines(out, &[at(b'N', options.name.bytes())], templates)
}
