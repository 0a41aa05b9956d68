//! The body that is open, from line to line.

ghost use Rattle.std.specs.Prelude.{◌≡◌, ◌≤◌, ◌∷◌, ◌++◌, ◌+◌, ◌-◌, ◌^◌, [], true, None, List, length, take, min, cond, All, IfOk};
ghost use Rattle.std.specs.Option.{option_copied};
ghost use Rattle.edl_interface.specs.declared.Function.{Function as Declared};
ghost use Rattle.edl_interface.specs.declared.Interface.{Interface as Functions};
ghost use Rattle.call_script.specs.Line as form;
ghost use Rattle.call_script.specs.Spelling.{Word};
ghost use Rattle.call_script.specs.Standing as standing;
ghost use Rattle.script_lines.specs.Lines as lines;
ghost use Rattle.script_faults.specs.Bodies as spec;
ghost use Rattle.script_faults.specs.Limits as limits;

use crate::body::Body;
use crate::body_ahead::look_ahead;
use crate::codes::BodyAround;
use crate::limit_rules::BodyRoom;
use crate::names::body_name;
use crate::room::less;
use edl_interface::Param;
use script_lines::Line;
use script_rules::{is_action, is_temporary};
use script_values::{BodyNames, NamedFunctions, NamedInterface};
use script_words::NumberedLines;
use sgx_base::Name;
use sqlite_items::Items;
use std::alloc::{AllocError, Global};

/// The parameters of the function of this name.
fn params_of<'a>(functions: &'a NamedFunctions, name: &[u8]) -> &'a [Param]
    ensures { result.now ≡ standing.params_of (standing.named functions.now name.now) }
{
    match functions.named(name) {
        Some(function) => function.params.as_slice(),
        None => &[],
    }
}

/// The parameters of the function of this name, where none has more than 64.
#[tactic(auto, using(crate::proofs::ParamLaws::few_params))]
fn few_params_of<'a>(functions: &'a NamedFunctions, name: &[u8]) -> &'a [Param]
    requires { All (λ f. length f.params ≤ 64) functions.now }
    ensures value { result.now ≡ standing.params_of (standing.named functions.now name.now) }
    ensures few { length result.now ≤ 64 }
{
    params_of(functions, name)
}

/// The first of these, so many or all.
fn first<'a>(names: &'a [Name], count: usize) -> &'a [Name]
    ensures { result.now ≡ take count names.now }
{
    let (front, _) = names.split_at(count.min(names.len()));
    front
}

/// One more where one came, or the most that the type has.
fn more(count: usize, came: bool) -> usize
    ensures { result ≡ min (count + cond came 1 0) (2 ^ 64 - 1) }
{
    if came { count.saturating_add(1) } else { count }
}

impl<'a> Body<'a> {
    /// No body.
    pub fn none(alloc: Global) -> Body<'a>
        ensures { result.left ≡ 0 }
    {
        Body {
            params: &[],
            temporaries: Items::new(alloc),
            given: 0,
            room: BodyRoom::new(),
            left: 0,
        }
    }

    /// The body of this name, whose lines begin with the next.
    fn begun<'t>(
        alloc: Global,
        interface: &'a NamedInterface,
        name: &'t [u8],
        behind: &NumberedLines<'t>,
    ) -> Result<Body<'a>, AllocError>
        requires { All (λ f. length f.params ≤ 64) interface.now.ecalls }
        ensures { IfOk result (λ b.
            spec.IsBody interface.now name.now [] (spec.lines_of_body name.now behind.now) b) }
    {
        let ahead = look_ahead(alloc, name, behind)?;
        Ok(Body {
            params: few_params_of(interface.ecalls(), name),
            temporaries: ahead.temporaries,
            given: 0,
            room: BodyRoom::new(),
            left: ahead.actions,
        })
    }

    /// Goes past a line of the body.
    fn pass(&mut self, line: &Line)
        ensures { (i : Functions) (name : Word) (before behind : List form.Line)
            → spec.IsBody i name before (lines.line_of line.now ∷ behind) self.old
            → spec.IsBody i name (before ++ lines.line_of line.now ∷ []) behind self.new }
    {
        self.given = more(self.given, is_temporary(line));
        self.left = less(self.left, is_action(line));
        self.room = self.room.behind(line);
    }

    /// Goes past a line, which may open a body.
    pub fn go_on<'t>(
        &mut self,
        alloc: Global,
        interface: &'a NamedInterface,
        line: &Line<'t>,
        behind: &NumberedLines<'t>,
    ) -> Result<(), AllocError>
        requires { All (λ f. length f.params ≤ 64) interface.now.ecalls }
        ensures opens { IfOk result (λ _. (name : Word) → lines.line_of line.now ≡ form.Body name
            → spec.IsBody interface.now name [] (spec.lines_of_body name behind.now) self.new) }
        ensures goes_on { IfOk result (λ _. (i : Functions) (name : Word) (before ls : List form.Line)
            → standing.body_name (lines.line_of line.now) ≡ None
            → spec.IsBody i name before (lines.line_of line.now ∷ ls) self.old
            → spec.IsBody i name (before ++ lines.line_of line.now ∷ []) ls self.new) }
    {
        match body_name(line) {
            Some(name) => {
                *self = Body::begun(alloc, interface, name, behind)?;
            }
            None => self.pass(line),
        }
        Ok(())
    }

    /// The body around its next line.
    pub fn around(&self) -> BodyAround<'_>
        ensures { (i : Functions) (name : Word) (before : List form.Line) (line : form.Line) (ls : List form.Line)
            → standing.is_action line ≡ true → spec.IsBody i name before (line ∷ ls) self.now
            → spec.IsAround i name before line ls result }
    {
        let temporaries = self.temporaries.as_slice();
        BodyAround {
            params: self.params,
            names: BodyNames::new(self.params, temporaries),
            temporaries: first(temporaries, self.given),
            room: self.room,
            behind: u64::from(self.left.saturating_sub(1)),
        }
    }
}
