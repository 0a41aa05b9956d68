//! The cases of a file.

use crate::parts::Part;
use std::alloc::{AllocError, Global};

/// A case: its first part, which has its name, and all parts that hold for it.
#[derive(Drop)]
pub struct Case<'a> {
    pub title: Part<'a>,
    /// The parts that the cases of the file have in common, and behind them its own.
    pub parts: Vec<Part<'a>>,
}

impl<'a> Case<'a> {
    /// The last part of this kind, which takes the place of those before it.
    pub fn last(&self, kind: &[u8]) -> Option<Part<'a>> {
        let mut last = None;
        for part in self.parts.as_slice() {
            if part.is(kind) {
                last = Some(*part);
            }
        }
        last
    }
}

/// The cases that these parts of a file make: those before the first case are common to all.
pub fn cases_of<'a>(alloc: Global, parts: &[Part<'a>]) -> Result<Vec<Case<'a>>, AllocError> {
    let mut common = Vec::new(alloc);
    let mut cases: Vec<Case<'a>> = Vec::new(alloc);
    for part in parts {
        if part.is(b"case") {
            cases.push(Case {
                title: *part,
                parts: Vec::from_slice(alloc, common.as_slice())?,
            })?;
        } else {
            match cases.last_mut() {
                Some(case) => case.parts.push(*part)?,
                None => common.push(*part)?,
            }
        }
    }
    Ok(cases)
}
