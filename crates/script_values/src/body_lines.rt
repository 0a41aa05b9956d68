//! The actions of bodies whose lines are not of the table: a temporary, and an OCALL.

ghost use Rattle.std.specs.Prelude.{◌≡◌, ◌≤◌, ◌^◌, false, length, map, List, IfOk};
ghost use Rattle.std.specs.Option.{option_copied};
ghost use Rattle.edl_interface.specs.declared.Function.{Function};
ghost use Rattle.call_script.specs.Line as line;
ghost use Rattle.call_script.specs.Spelling.{is_out_of};
ghost use Rattle.script_values.specs.Calls as spec;

use crate::actions::register_or_zero;
use crate::body_names::BodyNames;
use crate::calls::ocall_passes;
use crate::functions::NamedFunctions;
use body_vm::{Action, Pass};
use edl_interface::Function;
use script_words::number_of;
use sqlite_items::Items;
use std::alloc::{AllocError, Global};

/// The action of a line `temp NAME SIZE`.
#[tactic(auto, using(crate::proofs::FunctionLaws::size_fits))]
pub fn temporary(names: &BodyNames, name: &[u8], size: &[u8]) -> Action
    requires { is_out_of 1 65536 size.now ≡ false }
    ensures { (ocalls : List Function) → spec.IsActionOf ocalls names.now (line.Temp name.now size.now) result }
{
    let size = number_of(size) as u32;
    Action::Temp(names.block_or_zero(name), size)
}

/// The words of a line `ocall R Q NAME(ARG, ..)`.
#[derive(Clone, Copy)]
pub struct OcallWords<'a> {
    pub ret: &'a [u8],
    pub status: &'a [u8],
    pub name: &'a [u8],
    pub args: &'a [&'a [u8]],
}

fn passes_for(
    alloc: Global,
    names: &BodyNames,
    function: Option<&Function>,
    args: &[&[u8]],
) -> Result<Items<Pass>, AllocError>
    ensures { IfOk result
        (λ values. spec.ArePasses names.now (option_copied function.entry) (map (λ w. w.now) args.now) values) }
{
    match function {
        Some(function) => ocall_passes(alloc, names, function, args),
        None => Ok(Items::new(alloc)),
    }
}

/// The action of a line `ocall R Q NAME(ARG, ..)`.
pub fn ocall(
    alloc: Global,
    ocalls: &NamedFunctions,
    names: &BodyNames,
    words: &OcallWords,
) -> Result<Action, AllocError>
    requires { length ocalls.now ≤ 2 ^ 32 }
    ensures { IfOk result (λ action. spec.IsActionOf ocalls.now names.now
        (line.Ocall words.now.ret.now words.now.status.now words.now.name.now (map (λ w. w.now) words.now.args.now))
        action) }
{
    let args = passes_for(alloc, names, ocalls.named(words.name), words.args)?;
    Ok(Action::Ocall {
        ret: register_or_zero(words.ret),
        status: register_or_zero(words.status),
        ordinal: ocalls.ordinal_of(words.name),
        args,
    })
}
