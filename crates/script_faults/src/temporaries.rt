//! The rule of names that are given twice.

ghost use Rattle.std.specs.Prelude.{◌≡◌, ◌&&◌, ◌||◌, true, filter_map};
ghost use Rattle.std.specs.List.{list_any};
ghost use Rattle.std.specs.Str.{bytes_eq};
ghost use Rattle.edl_interface.specs.declared.Interface.{Interface as Functions};
ghost use Rattle.edl_interface.specs.Parameters.{is_marshalled};
ghost use Rattle.call_script.specs.Faults as spec;
ghost use Rattle.call_script.specs.Standing as standing;
ghost use Rattle.call_script.specs.Standing.{Standing, lines_before};
ghost use Rattle.script_lines.specs.Lines as lines;
ghost use Rattle.script_faults.specs.Names.{AreNamed};

use crate::names::GivenNames;
use edl_interface::Param;
use script_lines::Line;
use script_words::same;
use sgx_base::Name;

fn is_temporary_of(temporaries: &[Name], name: &[u8]) -> bool
    ensures { result ≡ list_any (bytes_eq name.now) temporaries.now }
{
    temporaries.iter().any(|other| same(name, other.bytes()))
}

fn is_marshalled_of(params: &[Param], name: &[u8]) -> bool
    ensures { result ≡ list_any (λ p. is_marshalled p.class && bytes_eq p.name name.now) params.now }
{
    params.iter().any(|param| param.class.is_marshalled() && same(param.name.bytes(), name))
}

fn is_block_of(params: &[Param], temporaries: &[Name], name: &[u8]) -> bool
    ensures { result ≡ (list_any (bytes_eq name.now) temporaries.now
        || list_any (λ p. is_marshalled p.class && bytes_eq p.name name.now) params.now) }
{
    is_temporary_of(temporaries, name) || is_marshalled_of(params, name)
}

/// Given twice. In a body these are the parameters of its function, and the temporaries so far.
pub fn is_given_twice(
    names: &GivenNames,
    params: &[Param],
    temporaries: &[Name],
    line: &Line,
) -> bool
    ensures { (i : Functions) (s : Standing) → AreNamed (lines_before s) names.now
        → (standing.is_action (lines.line_of line.now) ≡ true → params.now ≡ (standing.names_at i s).params)
        → (standing.is_action (lines.line_of line.now) ≡ true
        → temporaries.now ≡ filter_map standing.temporary_name (standing.beside s s.before))
        → result ≡ spec.is_given_twice i s (lines.line_of line.now) }
{
    match line {
        Line::Temp { name, .. } => is_block_of(params, temporaries, *name),
        _ => names.has(line),
    }
}
