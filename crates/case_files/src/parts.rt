//! The parts of a file of cases.

ghost use Rattle.std.specs.Prelude.{◌≡◌, ◌≤◌, ◌<◌, [], length, drop, true, IfNone, IfSome, OnSome};
ghost use Rattle.case_files.specs.Parts.{body_length, IsNextPart};

use crate::numbers::cut_at_blank;
use std::alloc::{AllocError, Global};

/// What begins the line of a marker.
const MARK: &[u8] = b"== ";

/// The line of a marker, and the lines below it up to the next.
#[derive(Clone, Copy)]
pub struct Part<'a> {
    /// The marker's line, from 1.
    pub line: usize,
    /// The marker's line, with its line feed.
    pub head: &'a [u8],
    /// The lines below.
    pub body: &'a [u8],
}

impl<'a> Part<'a> {
    /// The marker, without what begins its line, and without its line feed.
    fn marker(self) -> &'a [u8] {
        let marker = self.head.strip_prefix(MARK).unwrap_or(self.head);
        marker.strip_suffix(b"\n").unwrap_or(marker)
    }

    /// The first word of the marker, which says what the part is.
    pub fn kind(self) -> &'a [u8] {
        cut_at_blank(self.marker()).0
    }

    /// Whether the part is of this kind.
    pub fn is(self, kind: &[u8]) -> bool {
        self.kind() == kind
    }

    /// What follows the first word.
    pub fn value(self) -> &'a [u8] {
        cut_at_blank(self.marker()).1
    }
}

/// How many bytes stand before the next marker, where a line begins.
fn body_len(bytes: &[u8]) -> usize
    ensures value { result ≡ body_length true bytes.now }
    ensures within { result ≤ length bytes.now }
{
    let mut len = 0;
    let mut begins = true;
    while len < bytes.len() && !(begins && bytes[len..].starts_with(MARK)) {
        begins = bytes[len] == b'\n';
        len += 1;
    }
    len
}

/// The length of the first line, with its line feed.
fn line_len(bytes: &[u8]) -> usize
    ensures within { result ≤ length bytes.now }
    ensures some { 0 < length bytes.now → 0 < result }
{
    match bytes.iter().position(|byte| *byte == b'\n') {
        Some(at) => at + 1,
        None => bytes.len(),
    }
}

fn line_feeds(bytes: &[u8]) -> usize {
    bytes.iter().filter(|byte| **byte == b'\n').count()
}

/// The parts of a text that are left.
#[derive(Drop)]
pub struct Parts<'a> {
    rest: &'a [u8],
    line: usize,
}

impl<'a> Parts<'a> {
    /// The parts of a text. What stands before its first marker says nothing.
    pub fn new(text: &'a [u8]) -> Parts<'a>
        ensures { result.rest.now ≡ drop (body_length true text.now) text.now }
    {
        let (before, rest) = text.split_at(body_len(text));
        Parts {
            rest,
            line: line_feeds(before).saturating_add(1),
        }
    }

    /// Takes the next part.
    pub fn next(&mut self) -> Option<Part<'a>>
        ensures part { IfSome result (λ p. IsNextPart p.head.now p.body.now self.old.rest.now self.new.rest.now) }
        ensures none { IfNone result (self.old.rest.now ≡ []) }
        ensures shorter { OnSome result (length self.new.rest.now < length self.old.rest.now) }
    {
        let text = self.rest;
        if text.is_empty() {
            return None;
        }
        let (head, below) = text.split_at(line_len(text));
        let (body, rest) = below.split_at(body_len(below));
        let line = self.line;
        self.rest = rest;
        self.line = line
            .saturating_add(line_feeds(head))
            .saturating_add(line_feeds(body));
        Some(Part { line, head, body })
    }
}

/// All parts of a text.
pub fn parts_of(alloc: Global, text: &[u8]) -> Result<Vec<Part<'_>>, AllocError> {
    let mut parts = Parts::new(text);
    let mut found = Vec::new(alloc);
    while let Some(part) = parts.next() {
        found.push(part)?;
    }
    Ok(found)
}
