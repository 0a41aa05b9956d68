//! Writes the stubs of an enclave's interface.
#![tactic(auto)]

use edger8r::{MEMORY, edger8r};
use sgx_base::{DiskFiles, StdSink, Word};
use std::io::ErrorKind;
use std::process::ExitCode;
use std::rt::Runtime;
use std::{env, io};

/// The words of the command line, without the program's name.
fn words_of<R: Runtime + AllocGlobal>(rt: &R) -> io::Result<Vec<Word>> {
    let mut words = Vec::new(rt.alloc());
    for arg in env::args(rt)?.skip(1) {
        words.push(Word::new(rt.alloc(), arg.as_str())?)?;
    }
    Ok(words)
}

/// A word that is not UTF-8 leaves no words, which are none that the tool takes.
fn call<R: Runtime + AllocGlobal>(rt: &R) -> io::Result<u8> {
    let words = match words_of(rt) {
        Err(e) if e.kind() != ErrorKind::OutOfMemory => Vec::new(rt.alloc()),
        words => words?,
    };
    let mut files = DiskFiles::new(rt.clone()?);
    let mut out = StdSink::new(rt.clone()?);
    Ok(edger8r(rt.alloc(), words.as_slice(), &mut files, &mut out))
}

fn main(rt: HostRuntime) -> ExitCode {
    ExitCode::from(call(&rt).unwrap_or(MEMORY))
}
