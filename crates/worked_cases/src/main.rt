//! Runs programs on the cases of files, and prints where one does not do what its case says.
#![tactic(auto)]

use callrun::callrun;
use case_files::{
    Case, CaseFault, Flaw, Span, Trial, cases_of, difference_of, parts_of, shown, span_of, trial_of,
};
use edger8r::edger8r;
use sgx_base::{Files, Sink, Word};
use std::alloc::{AllocError, Global};
use std::process::ExitCode;
use std::rt::Runtime;
use std::{env, fs, io};

/// The status that a program gives over this store and sink, where there is one of this name.
fn run_program<F: Files, O: Sink>(
    alloc: Global,
    program: &[u8],
    words: &[Word],
    files: &mut F,
    sink: &mut O,
) -> Option<u8> {
    match program {
        b"sgx_callrun" => Some(callrun(alloc, words, files, sink)),
        b"sgx_edger8r" => Some(edger8r(alloc, words, files, sink)),
        _ => None,
    }
}

/// Runs a trial, and says in words what its program did otherwise.
fn run_trial(alloc: Global, trial: &mut Trial) -> Result<Option<String>, Flaw> {
    let status = run_program(
        alloc,
        trial.program.as_slice(),
        trial.words.as_slice(),
        &mut trial.files,
        &mut trial.sink,
    );
    match status {
        Some(status) => Ok(difference_of(alloc, trial, status)?),
        None => Err(Flaw::Program),
    }
}

/// Runs a case for a number of its span.
fn run_case(alloc: Global, case: &Case, number: u64) -> Result<Option<String>, CaseFault> {
    let mut trial = trial_of(alloc, case, number)?;
    match run_trial(alloc, &mut trial) {
        Ok(difference) => Ok(difference),
        Err(flaw) => Err(CaseFault {
            line: case.title.line,
            flaw,
        }),
    }
}

/// How many trials there were, and in how many a program did otherwise.
#[derive(Clone, Copy)]
struct Counts {
    run: u64,
    differ: u64,
}

impl Counts {
    fn plus(self, other: Counts) -> Counts {
        Counts {
            run: self.run.saturating_add(other.run),
            differ: self.differ.saturating_add(other.differ),
        }
    }
}

/// Prints a case's line in its file, its name and the number that it was run for, and behind them what is said of it.
fn tell<R: Runtime + AllocGlobal>(
    rt: &R,
    file: &str,
    case: &Case,
    number: u64,
    said: &str,
) -> io::Result<()> {
    let line = case.title.line;
    let name = shown(rt.alloc(), case.title.value())?;
    println!(rt; "{file}:{line}: {name} ({number}): {said}")
}

/// Runs a case for each number of its span.
fn run_span<R: Runtime + AllocGlobal>(
    rt: &R,
    file: &str,
    case: &Case,
    span: Span,
) -> io::Result<Result<Counts, CaseFault>> {
    let mut counts = Counts { run: 0, differ: 0 };
    for number in span.first..=span.last {
        let difference = match run_case(rt.alloc(), case, number) {
            Ok(difference) => difference,
            Err(fault) => return Ok(Err(fault)),
        };
        counts.run = counts.run.saturating_add(1);
        if let Some(said) = difference {
            tell(rt, file, case, number, said.as_str())?;
            counts.differ = counts.differ.saturating_add(1);
        }
    }
    Ok(Ok(counts))
}

/// Runs the cases of a text, which is a file's.
fn run_text<R: Runtime + AllocGlobal>(
    rt: &R,
    file: &str,
    text: &[u8],
) -> io::Result<Result<Counts, CaseFault>> {
    let parts = parts_of(rt.alloc(), text)?;
    let cases = cases_of(rt.alloc(), parts.as_slice())?;
    let mut counts = Counts { run: 0, differ: 0 };
    for case in cases.as_slice() {
        let span = match span_of(case) {
            Ok(span) => span,
            Err(fault) => return Ok(Err(fault)),
        };
        match run_span(rt, file, case, span)? {
            Ok(more) => counts = counts.plus(more),
            Err(fault) => return Ok(Err(fault)),
        }
    }
    Ok(Ok(counts))
}

/// Runs a file's cases and prints their counts, and says whether each was as it must be.
fn run_file<R: Runtime + AllocGlobal>(rt: &R, file: &str) -> io::Result<bool> {
    let text = fs::read(rt, file)?;
    match run_text(rt, file, text.as_slice())? {
        Ok(counts) => {
            let Counts { run, differ } = counts;
            println!(rt; "{file}: {run} run, {differ} differ")?;
            Ok(differ == 0)
        }
        Err(fault) => {
            let line = fault.line;
            let words = fault.flaw.words();
            println!(rt; "{file}:{line}: {words}")?;
            Ok(false)
        }
    }
}

/// Runs the files that the command line names.
fn run_files<R: Runtime + AllocGlobal>(rt: &R) -> io::Result<bool> {
    let mut all = true;
    for file in env::args(rt)?.skip(1) {
        all = run_file(rt, file.as_str())? && all;
    }
    Ok(all)
}

fn main(rt: HostRuntime) -> io::Result<ExitCode> {
    match run_files(&rt)? {
        true => Ok(ExitCode::SUCCESS),
        false => Ok(ExitCode::FAILURE),
    }
}
