//! The arguments of a whole call: the rules of their words, and their values.

ghost use Rattle.std.specs.Prelude.{◌≡◌, ◌++◌, false, map, zip, unwrap_or, None, Some, IfOk, OnOk};
ghost use Rattle.std.specs.List.{list_any};
ghost use Rattle.call_script.specs.Arguments.{is_place_argument_out, argument_of};
ghost use Rattle.call_script.specs.BodyNames.{pass_of};
ghost use Rattle.body_vm.specs.declared.Pass.TheVariants as pass;
ghost use Rattle.script_values.specs.Calls as spec;

use crate::arguments::{argument_of, is_bad_hex_argument, is_misfit, is_wrong_argument};
use crate::body_names::BodyNames;
use body_vm::Pass;
use call_script::CallArg;
use edl_interface::{Function, Param};
use sqlite_items::Items;
use std::alloc::{AllocError, Global};

/// A rule of the arguments of calls.
#[derive(Drop)]
pub enum ArgumentRule<'a> {
    /// A word of a `call` has not the form of an argument.
    WrongForm,
    /// A word of a `call` is a value that the type has not.
    Misfit,
    /// A word of a `call` is bad hex.
    BadHex,
    /// A word of an `ocall` is a name that stands for nothing in this body.
    UnknownName(&'a BodyNames<'a>),
    /// A word of an `ocall` does not fit for another reason.
    WrongPass(&'a BodyNames<'a>),
}

impl ArgumentRule<'_> {
    /// Whether the word breaks the rule for this parameter.
    pub fn is_broken(&self, param: &Param, word: &[u8]) -> bool
        ensures { result ≡ spec.is_broken self.now param.now word.now }
    {
        match *self {
            ArgumentRule::WrongForm => is_wrong_argument(&param.class, word),
            ArgumentRule::Misfit => is_misfit(&param.class, word),
            ArgumentRule::BadHex => is_bad_hex_argument(&param.class, word),
            ArgumentRule::UnknownName(names) => names.is_unknown_argument(param, word),
            ArgumentRule::WrongPass(names) => names.is_wrong_pass(param, word),
        }
    }
}

fn push_arguments(
    alloc: Global,
    values: &mut Items<CallArg>,
    params: &[Param],
    args: &[&[u8]],
) -> Result<(), AllocError>
    requires { list_any is_place_argument_out (map (λ w. w.now) args.now) ≡ false }
    ensures { OnOk result (values.new
        ≡ values.old ++ map (λ p. argument_of p.0.class p.1) (zip params.now (map (λ w. w.now) args.now))) }
{
    let [param, params @ ..] = params else {
        return Ok(());
    };
    let [word, args @ ..] = args else {
        return Ok(());
    };
    values.push(argument_of(alloc, &param.class, word)?)?;
    push_arguments(alloc, values, params, args)
}

/// The arguments of a `call`, none of whose places is too large.
pub fn call_arguments(
    alloc: Global,
    function: &Function,
    args: &[&[u8]],
) -> Result<Items<CallArg>, AllocError>
    requires { list_any is_place_argument_out (map (λ w. w.now) args.now) ≡ false }
    ensures { IfOk result (λ values. spec.AreArguments function.now (map (λ w. w.now) args.now) values) }
{
    let mut values = Items::new(alloc);
    push_arguments(alloc, &mut values, function.params.as_slice(), args)?;
    Ok(values)
}

fn pass_or_null(names: &BodyNames, param: &Param, word: &[u8]) -> Pass
    ensures { result ≡ unwrap_or (pass_of names.now param.now word.now) (pass.Bytes None) }
{
    names.pass_of(param, word).unwrap_or(Pass::Bytes(None))
}

fn push_passes(
    values: &mut Items<Pass>,
    names: &BodyNames,
    params: &[Param],
    args: &[&[u8]],
) -> Result<(), AllocError>
    ensures { OnOk result (values.new ≡ values.old
        ++ map (λ p. unwrap_or (pass_of names.now p.0 p.1) (pass.Bytes None))
        (zip params.now (map (λ w. w.now) args.now))) }
{
    let [param, params @ ..] = params else {
        return Ok(());
    };
    let [word, args @ ..] = args else {
        return Ok(());
    };
    values.push(pass_or_null(names, param, word))?;
    push_passes(values, names, params, args)
}

/// What an `ocall` passes, in a body with these names.
pub fn ocall_passes(
    alloc: Global,
    names: &BodyNames,
    function: &Function,
    args: &[&[u8]],
) -> Result<Items<Pass>, AllocError>
    ensures { IfOk result (λ values. spec.ArePasses names.now (Some function.now) (map (λ w. w.now) args.now) values) }
{
    let mut values = Items::new(alloc);
    push_passes(&mut values, names, function.params.as_slice(), args)?;
    Ok(values)
}
