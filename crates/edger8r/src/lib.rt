//! The top call of the tool: from words and EDL files to stubs, one text and a status.
#![tactic(auto)]

ghost use Rattle.std.specs.Prelude.{◌≡◌};
ghost use Rattle.sgx_base.specs.Outcome.{OrMemory};
ghost use Rattle.edger8r.specs.Answers.{Answers, AreOthersAsBefore, IsMakeable, NothingFailed};
ghost use Rattle.edger8r.specs.Endings.{Ends};

mod ending;
mod making;
mod writing;

use crate::ending::{Ending, text_of};
use crate::making::make_all;
pub use command_line::MEMORY;
use command_line::status_after;
use sgx_base::{Files, Sink, Word, write_text};
use std::alloc::Global;
use tool_words::{Request, WordsFault, read_words};

/// Does what the words ask for.
fn make_words<F: Files>(alloc: Global, words: &[Word], files: &mut F) -> Ending
    ensures { Ends words.now (F.state files.old) (F.state files.new) result }
{
    match read_words(alloc, words) {
        Ok(Request::Help) => Ending::Help,
        Ok(Request::Stubs(choices)) => {
            make_all(alloc, files, &choices, choices.files.as_slice())
        }
        Err(WordsFault::Usage) => Ending::Usage,
        Err(WordsFault::Memory) => Ending::Memory,
    }
}

/// Writes the stubs of the EDL files that the words name, as their options choose, or the usage line where they ask for
/// help. The EDL files are taken in order, each read as the stubs of those before it leave the files; the first fault
/// ends the call, and files written before it stay. One text is written to the sink by one call, or none where all
/// stubs are written.
///
/// Gives the status: 0 where the stubs or the usage line are written, 1 for other words, 2 for a fault of an EDL file, 4
/// for a file that could not be read and 7 for one that is not there, 5 where a file or the sink refuses, and 6 where
/// memory runs out.
pub fn edger8r<F: Files, O: Sink>(alloc: Global, words: &[Word], files: &mut F, out: &mut O) -> u8
    ensures answers { Answers words.now
        (F.state files.old) (F.state files.new) (O.state out.old) (O.state out.new) result }
    ensures others { AreOthersAsBefore words.now (F.state files.old) (F.state files.new) }
    ensures complete { IsMakeable words.now (F.state files.old)
        → NothingFailed (F.state files.old) (F.state files.new) (O.state out.old) (O.state out.new)
        → OrMemory MEMORY (λ status. status ≡ 0) result }
{
    let ending = make_words(alloc, words, files);
    let Ok(text) = text_of(alloc, &ending) else {
        return MEMORY;
    };
    let written = write_text(out, text.as_slice());
    status_after(ending.status(), written)
}
