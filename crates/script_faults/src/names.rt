//! The names that lines give.

ghost use Rattle.std.specs.Prelude.{◌≡◌, ◌||◌, ◌∷◌, ◌++◌, [], List, option_map, IfOk};
ghost use Rattle.std.specs.List.{list_any};
ghost use Rattle.std.specs.Str.{bytes_eq};
ghost use Rattle.call_script.specs.Line as form;
ghost use Rattle.call_script.specs.Spelling.{Word};
ghost use Rattle.call_script.specs.Standing as standing;
ghost use Rattle.script_lines.specs.Lines as lines;
ghost use Rattle.script_faults.specs.Names as spec;

use indexmap::IndexSet;
use script_lines::Line;
use std::alloc::{AllocError, Global};

pub fn body_name<'a>(line: &Line<'a>) -> Option<&'a [u8]>
    ensures { option_map (λ w. w.now) result ≡ standing.body_name (lines.line_of line.now) }
{
    match line {
        Line::Body { name } => Some(*name),
        _ => None,
    }
}

fn handler_name<'a>(line: &Line<'a>) -> Option<&'a [u8]>
    ensures { option_map (λ w. w.now) result ≡ standing.handler_name (lines.line_of line.now) }
{
    match line {
        Line::Handler { name } => Some(*name),
        _ => None,
    }
}

fn foreign_name<'a>(line: &Line<'a>) -> Option<&'a [u8]>
    ensures { option_map (λ w. w.now) result ≡ standing.foreign_name (lines.line_of line.now) }
{
    match line {
        Line::Foreign { name, .. } => Some(*name),
        _ => None,
    }
}

pub fn temporary_name<'a>(line: &Line<'a>) -> Option<&'a [u8]>
    ensures { option_map (λ w. w.now) result ≡ standing.temporary_name (lines.line_of line.now) }
{
    match line {
        Line::Temp { name, .. } => Some(*name),
        _ => None,
    }
}

/// Puts the name into the table, if there is one.
fn put<'a>(names: &mut IndexSet<&'a [u8]>, name: Option<&'a [u8]>) -> Result<(), AllocError>
    ensures { IfOk result (λ _. (w : Word) → spec.tells names.new w
        ≡ (spec.tells names.old w || list_any (bytes_eq w) (spec.listed (option_map (λ n. n.now) name.entry)))) }
{
    if let Some(name) = name {
        names.insert(name)?;
    }
    Ok(())
}

fn is_among(names: &IndexSet<&[u8]>, name: &[u8]) -> bool
    ensures { result ≡ spec.tells names.now name.now }
{
    names.contains(name)
}

/// The names that lines give: those of bodies, of handlers and of foreign types.
#[derive(Drop)]
pub struct GivenNames<'a> {
    pub bodies: IndexSet<&'a [u8]>,
    pub handlers: IndexSet<&'a [u8]>,
    pub foreign_types: IndexSet<&'a [u8]>,
}

impl<'a> GivenNames<'a> {
    pub fn new(alloc: Global) -> GivenNames<'a>
        ensures { spec.AreNamed [] result }
    {
        GivenNames {
            bodies: IndexSet::new(alloc),
            handlers: IndexSet::new(alloc),
            foreign_types: IndexSet::new(alloc),
        }
    }

    /// Whether the name that the line gives, and no temporary's, is given.
    pub fn has(&self, line: &Line) -> bool
        ensures { (ls : List form.Line) → spec.AreNamed ls self.now
            → result ≡ spec.is_named_before ls (lines.line_of line.now) }
    {
        match line {
            Line::Body { name } => is_among(&self.bodies, *name),
            Line::Handler { name } => is_among(&self.handlers, *name),
            Line::Foreign { name, .. } => is_among(&self.foreign_types, *name),
            _ => false,
        }
    }

    /// Goes past a line.
    pub fn pass(&mut self, line: &Line<'a>) -> Result<(), AllocError>
        ensures { IfOk result (λ _. (ls : List form.Line) → spec.AreNamed ls self.old
            → spec.AreNamed (ls ++ lines.line_of line.now ∷ []) self.new) }
    {
        put(&mut self.bodies, body_name(line))?;
        put(&mut self.handlers, handler_name(line))?;
        put(&mut self.foreign_types, foreign_name(line))?;
        Ok(())
    }
}
