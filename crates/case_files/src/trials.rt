//! A case that is ready to be run, and what came of it.

ghost use Rattle.std.specs.Prelude.{◌≡◌, ◌≤◌, [], Ok, IfOk, IfErr, is_none};
ghost use Rattle.std.specs.List.{list_all};
ghost use Rattle.case_files.specs.Trials as spec;

use crate::cases::Case;
use crate::escapes::expanded;
use crate::faults::{CaseFault, Flaw};
use crate::numbers::{Span, cut_at_blank, read_span};
use crate::parts::Part;
use sgx_base::{MemFiles, MemSink, Word, read_number};
use std::alloc::{AllocError, Global};

/// A file by its name.
#[derive(Drop)]
pub struct NamedFile {
    pub name: String,
    pub bytes: Vec<u8>,
}

/// What a program is run on, and what it must do.
#[derive(Drop)]
pub struct Trial {
    /// The program's name.
    pub program: Vec<u8>,
    pub words: Vec<Word>,
    pub files: MemFiles,
    pub sink: MemSink,
    /// The status that it must give.
    pub status: u8,
    /// The bytes that the sink must get.
    pub written: Vec<u8>,
    /// Files that the store must hold afterwards.
    pub held: Vec<NamedFile>,
}

/// The kinds of a case's parts.
fn is_kind(kind: &[u8]) -> bool {
    matches!(
        kind,
        b"run" | b"each" | b"file" | b"store-fails" | b"sink-fails" | b"status" | b"sink" | b"held"
    )
}

/// The result, with the line of the part that it is about.
fn at<T: Drop>(line: usize, found: Result<T, Flaw>) -> Result<T, CaseFault>
    ensures ok { IfOk result (λ value. found ≡ Ok value) }
    ensures err { IfErr result (λ fault. fault.line ≡ line) }
{
    match found {
        Ok(value) => Ok(value),
        Err(flaw) => Err(CaseFault { line, flaw }),
    }
}

/// The text that a word or a name stands for.
fn text_of(alloc: Global, text: &[u8], number: u64) -> Result<String, Flaw> {
    match String::from_utf8(expanded(alloc, text, number)?) {
        Ok(text) => Ok(text),
        Err(_) => Err(Flaw::Text),
    }
}

/// The words that these stand for, which blanks part.
fn words_of(alloc: Global, text: &[u8], number: u64) -> Result<Vec<Word>, Flaw> {
    let mut words = Vec::new(alloc);
    let mut rest = text;
    while !rest.is_empty() {
        let (word, behind) = cut_at_blank(rest);
        words.push(Word::new(alloc, text_of(alloc, word, number)?.as_str())?)?;
        rest = behind;
    }
    Ok(words)
}

/// The numbers of calls, which blanks part.
fn calls_of(alloc: Global, text: &[u8]) -> Result<Vec<u32>, Flaw> {
    let mut calls = Vec::new(alloc);
    let mut rest = text;
    while !rest.is_empty() {
        let (word, behind) = cut_at_blank(rest);
        match read_number(word).and_then(|number| u32::try_from(number).ok()) {
            Some(number) => calls.push(number)?,
            None => return Err(Flaw::Number),
        }
        rest = behind;
    }
    Ok(calls)
}

fn status_of(text: &[u8]) -> Result<u8, Flaw> {
    match read_number(text).and_then(|number| u8::try_from(number).ok()) {
        Some(status) => Ok(status),
        None => Err(Flaw::Number),
    }
}

/// The numbers for which a case is run: 1 alone, where it does not say.
pub fn span_of(case: &Case) -> Result<Span, CaseFault>
    ensures { IfOk result (λ span. span.first ≤ span.last) }
{
    let Some(each) = case.last(b"each") else {
        return Ok(Span { first: 1, last: 1 });
    };
    match read_span(each.value()) {
        Some(span) => Ok(span),
        None => Err(CaseFault {
            line: each.line,
            flaw: Flaw::Number,
        }),
    }
}

/// The part of this kind that each case has.
fn needed<'a>(case: &Case<'a>, kind: &[u8], flaw: Flaw) -> Result<Part<'a>, CaseFault> {
    match case.last(kind) {
        Some(part) => Ok(part),
        None => Err(CaseFault {
            line: case.title.line,
            flaw,
        }),
    }
}

/// Every part is of a kind that there is.
fn check_kinds(case: &Case) -> Result<(), CaseFault> {
    for part in case.parts.as_slice() {
        if !is_kind(part.kind()) {
            return Err(CaseFault {
                line: part.line,
                flaw: Flaw::Marker,
            });
        }
    }
    Ok(())
}

/// The calls that fail, by the part of this kind.
fn failing(alloc: Global, case: &Case, kind: &[u8]) -> Result<Vec<u32>, CaseFault> {
    match case.last(kind) {
        Some(part) => at(part.line, calls_of(alloc, part.value())),
        None => Ok(Vec::new(alloc)),
    }
}

/// The file that a part is.
fn file_of(alloc: Global, part: Part<'_>, number: u64) -> Result<NamedFile, Flaw> {
    Ok(NamedFile {
        name: text_of(alloc, part.value(), number)?,
        bytes: expanded(alloc, part.body, number)?,
    })
}

/// The files that the parts of this kind are.
fn files_of(
    alloc: Global,
    case: &Case,
    kind: &[u8],
    number: u64,
) -> Result<Vec<NamedFile>, CaseFault> {
    let mut files = Vec::new(alloc);
    for part in case.parts.as_slice() {
        if part.is(kind) {
            let file = at(part.line, file_of(alloc, *part, number))?;
            at(part.line, files.push(file).map_err(Flaw::from))?;
        }
    }
    Ok(files)
}

/// A store of these files, of which calls of these numbers fail.
fn store_of(alloc: Global, files: &[NamedFile], failing: &[u32]) -> Result<MemFiles, AllocError> {
    let mut store = MemFiles::new(alloc, failing)?;
    for file in files {
        store.put(file.name.as_str(), file.bytes.as_slice())?;
    }
    Ok(store)
}

/// The bytes that the sink must get: none, where the case does not say.
fn written_of(alloc: Global, case: &Case, number: u64) -> Result<Vec<u8>, CaseFault> {
    match case.last(b"sink") {
        Some(part) => at(part.line, expanded(alloc, part.body, number)),
        None => Ok(Vec::new(alloc)),
    }
}

/// The trial that a case is for a number of its span.
pub fn trial_of(alloc: Global, case: &Case, number: u64) -> Result<Trial, CaseFault>
    ensures { IfOk result (λ trial. trial.sink.written ≡ []) }
{
    check_kinds(case)?;
    let run = needed(case, b"run", Flaw::NoRun)?;
    let (program, words) = cut_at_blank(run.value());
    let words = at(run.line, words_of(alloc, words, number))?;
    let program = at(
        run.line,
        Vec::from_slice(alloc, program).map_err(Flaw::from),
    )?;
    let status = needed(case, b"status", Flaw::NoStatus)?;
    let status = at(status.line, status_of(status.value()))?;
    let files = files_of(alloc, case, b"file", number)?;
    let failing_reads = failing(alloc, case, b"store-fails")?;
    let failing_writes = failing(alloc, case, b"sink-fails")?;
    let store = store_of(alloc, files.as_slice(), failing_reads.as_slice());
    let sink = MemSink::new(alloc, failing_writes.as_slice());
    Ok(Trial {
        program,
        words,
        files: at(case.title.line, store.map_err(Flaw::from))?,
        sink: at(case.title.line, sink.map_err(Flaw::from))?,
        status,
        written: written_of(alloc, case, number)?,
        held: files_of(alloc, case, b"held", number)?,
    })
}

/// The most bytes of a text that are shown.
const SHOWN: usize = 400;

/// Writes a byte as a file of cases has it.
fn show_byte(text: &mut String, byte: u8) -> Result<(), AllocError> {
    match byte {
        b'\n' => text.push_str("\\n"),
        b' '..=b'[' | b']'..=b'~' => text.push(char::from(byte)),
        _ => {
            let alloc = *text.allocator();
            text.push_str(format!(in alloc; "\\x{byte:02x}")?.as_str())
        }
    }
}

/// The first of these bytes as a line of a file of cases has them.
pub fn shown(alloc: Global, bytes: &[u8]) -> Result<String, AllocError> {
    let mut text = String::new(alloc);
    for byte in bytes.iter().take(SHOWN) {
        show_byte(&mut text, *byte)?;
    }
    Ok(text)
}

/// Whether the store holds a file, with just its bytes.
fn is_held(store: &MemFiles, file: &NamedFile) -> bool
    ensures { result ≡ spec.is_held store.now file.now }
{
    match store.get(file.name.as_str()) {
        Some(bytes) => bytes == file.bytes.as_slice(),
        None => false,
    }
}

/// Whether the store holds each of these files.
fn are_held(store: &MemFiles, files: &[NamedFile]) -> bool
    ensures { result ≡ list_all (spec.is_held store.now) files.now }
{
    files.iter().all(|file| is_held(store, file))
}

/// What a program with this status did that it must not, in words; nothing where it did what it must.
pub fn difference_of(alloc: Global, trial: &Trial, status: u8) -> Result<Option<String>, AllocError>
    ensures { IfOk result (λ words. is_none words ≡ spec.is_met trial.now status) }
{
    let found = trial.sink.written();
    if status != trial.status {
        let text = shown(alloc, found)?;
        let wanted = trial.status;
        let words = format!(in alloc;
            "status {status} in place of {wanted}, and the sink got: {text}"
        )?;
        return Ok(Some(words));
    }
    if found != trial.written.as_slice() {
        let text = shown(alloc, found)?;
        return Ok(Some(format!(in alloc; "the sink got: {text}")?));
    }
    if are_held(&trial.files, trial.held.as_slice()) {
        return Ok(None);
    }
    Ok(Some(String::from_str(alloc, "the store has other files")?))
}
