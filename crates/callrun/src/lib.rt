//! The top call of the runner: from words and files to one text and a status.
#![tactic(auto)]

mod laws;
mod sample_files;
mod samples;

ghost use Rattle.std.specs.Prelude.{ℕ, List, false, ◌≡◌, IfOk};
ghost use Rattle.sgx_base.specs.Outcome.{OrMemory};
ghost use Rattle.sgx_base.specs.Stores.{FilesState, AreOnlyRead};
ghost use Rattle.call_engine.specs.Prepared.{IsUnprepared};
ghost use Rattle.callrun.specs.Endings as spec;
ghost use Rattle.callrun.specs.Endings.{Names, HasCause, EndsBy, Ends};
ghost use Rattle.callrun.specs.Told.{Telling, report};
ghost use Rattle.callrun.specs.Answers.{Answers, IsRunnable, IsOverLimit, NothingFailed};

use crate::samples::run_sample;
use call_engine::{PrepareFault, RunFault, prepare, run_machine};
pub use command_line::MEMORY;
use command_line::{directories_of, status_after};
pub use laws::one_answer_law;
use sgx_base::{
    Fault, Files, Name, Sink, Word, edl_line, missing_line, read_number, script_line, unread_line,
    write_text,
};
use sqlite_items::Items;
use std::alloc::{AllocError, Global};
use word_port::RunFull;

/// How many calls a sample has at most.
const MOST_CALLS: u64 = 8000;

const USAGE: &[u8] = b"usage: sgx_callrun [--search-path P] FILE SCRIPT | --sample N\n";

/// How a call ends.
#[derive(Debug, Drop)]
enum Ending {
    /// The words ask for nothing that the program does.
    Usage,
    /// The EDL file of this name is at fault.
    Edl { name: Name, fault: Fault },
    /// The script of this name breaks the rule of this code at this line.
    Script { name: Name, line: u32, code: u8 },
    /// The file of this name could not be read.
    Unread(Name),
    /// There is no file of this name.
    Missing(Name),
    /// The run is done, and this is told of it.
    Done(Items<u8>),
    /// The thread needs more than this limit.
    Cut(RunFull),
}

impl Ending {
    fn status(&self) -> u8
        ensures { result ≡ spec.status_of self.now }
    {
        match self {
            Ending::Usage => 1,
            Ending::Edl { .. } => 2,
            Ending::Script { .. } => 3,
            Ending::Unread(_) => 4,
            Ending::Missing(_) => 7,
            Ending::Done(_) => 0,
            Ending::Cut(_) => 8,
        }
    }
}

fn is_option(word: &Word) -> bool
    ensures { result ≡ spec.is_option word.now }
{
    word.text().as_bytes().starts_with(b"--")
}

/// What is written at an ending.
fn text_of(alloc: Global, ending: &Ending) -> Result<Vec<u8>, AllocError>
    ensures { IfOk result (λ text. text.items ≡ spec.text_of ending.now) }
{
    match ending {
        Ending::Usage => Vec::from_slice(alloc, USAGE),
        Ending::Edl { name, fault } => edl_line(alloc, name, fault),
        Ending::Script { name, line, code } => script_line(alloc, name, *line, *code),
        Ending::Unread(name) => unread_line(alloc, name),
        Ending::Missing(name) => missing_line(alloc, name),
        Ending::Done(text) => Vec::from_slice(alloc, text.as_slice()),
        Ending::Cut(_) => Vec::from_slice(alloc, b"full: thread 0\n"),
    }
}

/// The ending where there is no machine.
fn ending_of(alloc: Global, script: &str, fault: PrepareFault) -> Result<Ending, AllocError>
    ensures { (telling : Telling) (paths : List (List ℕ)) (edl : List ℕ) (before after : FilesState)
        → OrMemory PrepareFault.Memory (IsUnprepared false paths edl script.now before after) fault
        → IfOk result (HasCause telling (record { paths = paths; edl = edl; script = script.now }) before after) }
{
    match fault {
        PrepareFault::Edl { name, fault } => Ok(Ending::Edl { name, fault }),
        PrepareFault::Script { line, code } => {
            let name = Name::new(alloc, script.as_bytes())?;
            Ok(Ending::Script { name, line, code })
        }
        PrepareFault::NotFound(name) => Ok(Ending::Missing(name)),
        PrepareFault::ReadFault(name) => Ok(Ending::Unread(name)),
        PrepareFault::Memory => Err(AllocError),
    }
}

/// Runs the script of one name on the EDL file of another, which imports by this search path.
#[tactic(auto, using(crate::proofs::ToldLaws::report_told))]
fn run_files<F: Files>(
    alloc: Global,
    files: &mut F,
    paths: &[Word],
    edl: &str,
    script: &str,
) -> Result<Ending, AllocError>
    ensures cause { IfOk result (HasCause report
        (record { paths = paths.now; edl = edl.now; script = script.now })
        (F.state files.old) (F.state files.new)) }
    ensures kept { AreOnlyRead (F.state files.old) (F.state files.new) }
{
    let machine = match prepare(alloc, files, paths, edl, script, false) {
        Ok(machine) => machine,
        Err(fault) => return ending_of(alloc, script, fault),
    };
    match run_machine(alloc, &machine) {
        Ok(text) => Ok(Ending::Done(Items::from_vec(text))),
        Err(RunFault::Full(full)) => Ok(Ending::Cut(full)),
        Err(RunFault::Memory) => Err(AllocError),
    }
}

/// The same of two words, which are names where neither is an option.
fn run_named<F: Files>(
    alloc: Global,
    files: &mut F,
    paths: &[Word],
    edl: &Word,
    script: &Word,
) -> Result<Ending, AllocError>
    ensures cause { IfOk result (EndsBy (spec.named paths.now edl.now script.now)
        (F.state files.old) (F.state files.new)) }
    ensures kept { AreOnlyRead (F.state files.old) (F.state files.new) }
{
    if is_option(edl) || is_option(script) {
        return Ok(Ending::Usage);
    }
    run_files(alloc, files, paths, edl.text(), script.text())
}

/// A sample of so many calls, where it may have so many.
fn run_counted(alloc: Global, calls: Option<u64>) -> Result<Ending, AllocError>
    ensures { (files : FilesState) → IfOk result (EndsBy (spec.counted calls) files files) }
{
    let Some(calls) = calls else {
        return Ok(Ending::Usage);
    };
    if calls == 0 || MOST_CALLS < calls {
        return Ok(Ending::Usage);
    }
    run_sample(alloc, calls as u32)
}

/// What two words ask for.
fn run_two<F: Files>(
    alloc: Global,
    files: &mut F,
    first: &Word,
    second: &Word,
) -> Result<Ending, AllocError>
    ensures cause { IfOk result (EndsBy (spec.task_of_two first.now second.now)
        (F.state files.old) (F.state files.new)) }
    ensures kept { AreOnlyRead (F.state files.old) (F.state files.new) }
{
    if first.text() == "--sample" {
        return run_counted(alloc, read_number(second.text().as_bytes()));
    }
    run_named(alloc, files, &[], first, second)
}

fn run_words<F: Files>(alloc: Global, words: &[Word], files: &mut F) -> Result<Ending, AllocError>
    ensures cause { IfOk result (Ends words.now (F.state files.old) (F.state files.new)) }
    ensures kept { AreOnlyRead (F.state files.old) (F.state files.new) }
{
    match words {
        [first, second] => run_two(alloc, files, first, second),
        [option, path, edl, script] => {
            if option.text() != "--search-path" {
                return Ok(Ending::Usage);
            }
            let paths = directories_of(alloc, path.text())?;
            run_named(alloc, files, paths.as_slice(), edl, script)
        }
        _ => Ok(Ending::Usage),
    }
}

/// Runs a script on an EDL file, whose names the words are, and writes the report by one call, or why there is none.
/// Before the names there may be `--search-path` and the directories of imported files, which colons part. In their
/// place there may be `--sample` and a number from 1 to 8000: a sample of so many calls is run, of which the summary is
/// written, and no file is touched.
///
/// Gives the status: 0 where the run is done, 1 for other words, 2 for a fault of the EDL file and 3 for one of the
/// script, 4 for a file that could not be read and 7 for one that is not there, 5 where the sink refuses, 6 where
/// memory runs out, and 8 for a thread that needs more than a limit.
pub fn callrun<F: Files, O: Sink>(alloc: Global, words: &[Word], files: &mut F, out: &mut O) -> u8
    ensures answers { Answers words.now
        (F.state files.old) (F.state files.new) (O.state out.old) (O.state out.new) result }
    ensures complete { IsRunnable words.now (F.state files.old)
        → NothingFailed (F.state files.old) (F.state files.new) (O.state out.old) (O.state out.new)
        → OrMemory MEMORY (λ status. status ≡ 0) result }
    ensures over_limit { IsOverLimit words.now (F.state files.old)
        → NothingFailed (F.state files.old) (F.state files.new) (O.state out.old) (O.state out.new)
        → OrMemory MEMORY (λ status. status ≡ 8) result }
    ensures kept { AreOnlyRead (F.state files.old) (F.state files.new) }
{
    let Ok(ending) = run_words(alloc, words, files) else {
        return MEMORY;
    };
    let Ok(text) = text_of(alloc, &ending) else {
        return MEMORY;
    };
    let written = write_text(out, text.as_slice());
    status_after(ending.status(), written)
}
