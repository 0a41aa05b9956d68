//! The words and lines of a report.
ghost use Rattle.std.specs.Prelude.{◌≡◌, [], ◌∷◌, ◌++◌, map, codes, option_map, unwrap_or, slice_get, IfOk, OnOk, string_bytes};
ghost use Rattle.call_report.specs.Report.{hex_text as hex_text_of, hex_number as hex_number_of, status_text as status_text_of, way_text as way_text_of, line as line_of, value_line as value_line_of, return_lines as return_lines_of, header as header_of};

use crate::{CallRecord, Way};
use edl_interface::Function;
use sgx_base::Status;
use std::alloc::{AllocError, Global};

/// Bytes as hexadecimal digits, and none as a dash.
pub(crate) fn hex_text(alloc: Global, bytes: &[u8]) -> Result<String, AllocError>
    ensures { IfOk result (λ text. string_bytes text ≡ hex_text_of bytes.now) }
{
    match bytes {
        [] => String::from_str(alloc, "-"),
        _ => hex::encode(alloc, bytes),
    }
}

/// An address as hexadecimal digits, with no leading zeros.
pub(crate) fn hex_number(alloc: Global, n: u64) -> Result<String, AllocError>
    ensures { IfOk result (λ text. string_bytes text ≡ hex_number_of n) }
{
    format!(in alloc; "0x{n:x}")
}

/// A status as hexadecimal digits, at least four.
pub(crate) fn status_text(alloc: Global, status: Status) -> Result<String, AllocError>
    ensures { IfOk result (λ text. string_bytes text ≡ status_text_of status.0) }
{
    let number = status.0;
    let digits = format!(in alloc; "{number:x}")?;
    let mut text = String::from_str(alloc, "0x")?;
    for zeros in 0..4usize.saturating_sub(digits.len()) {
        text.push_str("0")?;
    }
    text.push_str(digits.as_str())?;
    Ok(text)
}

/// The word of a way.
pub(crate) fn way_text(way: Way) -> &'static str
    ensures { result.now ≡ way_text_of way }
{
    match way {
        Way::Ordinary => "ordinary",
        Way::Fallback => "fallback",
        Way::Taken => "taken",
        Way::Served => "served",
    }
}

/// Appends a line: the words with a space between, and a line feed.
pub(crate) fn append_line(out: &mut Vec<u8>, words: &[&[u8]]) -> Result<(), AllocError>
    ensures { OnOk result (out.new.items ≡ out.old.items ++ line_of (map (λ word. word.now) words.now)) }
{
    match words {
        [] => {
            out.push(b'\n')?;
            Ok(())
        }
        [word] => {
            out.extend_from_slice(word)?;
            out.push(b'\n')?;
            Ok(())
        }
        [word, rest @ ..] => {
            out.extend_from_slice(word)?;
            out.push(b' ')?;
            append_line(out, rest)
        }
    }
}

/// Appends the line of a value under a header.
pub(crate) fn append_value_line(
    out: &mut Vec<u8>,
    word: &str,
    name: &[u8],
    text: &str,
) -> Result<(), AllocError>
    ensures { OnOk result (out.new.items ≡ out.old.items ++ value_line_of word.now name.now text.now) }
{
    out.extend_from_slice(b"  ")?;
    append_line(out, &[word.as_bytes(), name, text.as_bytes()])
}

/// Appends the line of a value that is bytes.
pub(crate) fn append_bytes_line(
    alloc: Global,
    out: &mut Vec<u8>,
    word: &str,
    name: &[u8],
    bytes: &[u8],
) -> Result<(), AllocError>
    ensures { OnOk result (out.new.items ≡ out.old.items ++ value_line_of word.now name.now (hex_text_of bytes.now)) }
{
    let text = hex_text(alloc, bytes)?;
    append_value_line(out, word, name, text.as_str())
}

/// Appends the line of the return, where there is one.
pub(crate) fn append_return_lines(
    alloc: Global,
    out: &mut Vec<u8>,
    function: &Function,
    bytes: &[u8],
) -> Result<(), AllocError>
    ensures { OnOk result (out.new.items ≡ out.old.items ++ return_lines_of function.now bytes.now) }
{
    if function.ret.is_none() {
        return Ok(());
    }
    let text = hex_text(alloc, bytes)?;
    out.extend_from_slice(b"  ")?;
    append_line(out, &["ret".as_bytes(), text.as_bytes()])
}

/// The name of the function of an ordinal, a dash past the table.
fn name_at(functions: &[Function], ordinal: u32) -> &[u8]
    ensures { result.now ≡ unwrap_or (option_map (λ f. f.name) (slice_get functions.now ordinal)) (codes "-") }
{
    match functions.get(ordinal as usize) {
        Some(function) => function.name.bytes(),
        None => b"-",
    }
}

/// Appends a line of six words.
fn append_six_words(
    out: &mut Vec<u8>,
    kind: &str,
    depth: &str,
    name: &[u8],
    frame: &str,
    way: &str,
    status: &str,
) -> Result<(), AllocError>
    ensures { OnOk result (out.new.items
        ≡ out.old.items ++ line_of (kind.now ∷ depth.now ∷ name.now ∷ frame.now ∷ way.now ∷ status.now ∷ [])) }
{
    append_line(
        out,
        &[
            kind.as_bytes(),
            depth.as_bytes(),
            name,
            frame.as_bytes(),
            way.as_bytes(),
            status.as_bytes(),
        ],
    )
}

/// Appends the first line of a call.
pub(crate) fn append_header(
    alloc: Global,
    out: &mut Vec<u8>,
    kind: &str,
    functions: &[Function],
    call: &CallRecord,
) -> Result<(), AllocError>
    ensures { OnOk result (out.new.items ≡ out.old.items ++ header_of kind.now functions.now call.now) }
{
    let depth = call.depth.to_string(alloc)?;
    let frame = hex_number(alloc, call.frame)?;
    let status = status_text(alloc, call.status)?;
    append_six_words(
        out,
        kind,
        depth.as_str(),
        name_at(functions, call.ordinal),
        frame.as_str(),
        way_text(call.way),
        status.as_str(),
    )
}
