//! The faults of functions.

ghost use Rattle.std.specs.Prelude.{◌≡◌, [], ◌∷◌, All, filter_map, MatchOption, OnOk, IfErr, option_map};
ghost use Rattle.std.specs.Option.{option_copied};
ghost use Rattle.edl_layout.specs.Faults as faults;
ghost use Rattle.edl_layout.specs.Picks.{pick_of, Checked, IsFrameFault, IsFunctionFault, AreCheckedFunctions};
ghost use Rattle.edl_layout.specs.Pushed.{is_none_of, IsArrayTest};

use crate::LayoutFault;
use crate::frames::{is_array, is_frame_too_large, is_too_long, is_void};
use crate::places::{too_large_at, unknown_at};
use crate::types::{Meant, Types};
use edl_grammar::{Declared, FuncDecl, Gathered, Pick, Written};

fn is_undeclared(meant: Meant) -> bool
    ensures { result ≡ is_none_of meant }
{
    match meant {
        Meant::Undeclared => true,
        Meant::Void | Meant::Known(_) | Meant::Unsized => false,
    }
}

/// Whether the type is not declared.
fn is_unknown(types: &Types, written: &Written) -> bool
    ensures { result ≡ faults.is_unknown types.now.gathered types.now.foreign written.now }
{
    is_undeclared(types.meant(&written.base))
}

/// Whether the type is not declared, or `void` where a value is wanted.
fn is_no_value(types: &Types, written: &Written) -> bool
    ensures { result ≡ faults.is_no_value types.now.gathered types.now.foreign written.now }
{
    is_unknown(types, written) || (is_void(&written.base) && written.stars == 0)
}

/// Whether it is an array that is longer than the limit.
fn is_long_array(types: &Types, declared: &Declared) -> bool
    ensures { IsArrayTest types.now.gathered types.now.foreign declared.now result }
{
    is_array(declared) && is_too_long(types, declared)
}

/// The fault of a parameter: its type, and then the length of an array.
fn param_fault(types: &Types, file: u32, declared: &Declared) -> Option<LayoutFault>
    ensures { MatchOption result (faults.IsCleanParam types.now.gathered types.now.foreign declared.now)
        (faults.ParamFault types.now.gathered types.now.foreign file declared.now) }
{
    if is_no_value(types, &declared.written) {
        Some(unknown_at(types.gathered(), file, declared.written.token))
    } else if is_long_array(types, declared) {
        Some(too_large_at(types.gathered(), file, declared.token))
    } else {
        None
    }
}

/// The fault of the first parameter that has one.
fn params_fault(types: &Types, file: u32, params: &[Declared]) -> Option<LayoutFault>
    ensures { Checked (faults.IsCleanParam types.now.gathered types.now.foreign)
        (faults.ParamFault types.now.gathered types.now.foreign file) params.now result }
{
    for param in params {
        if let Some(fault) = param_fault(types, file, param) {
            return Some(fault);
        }
    }
    None
}

/// The fault of a marshalling structure.
fn frame_fault(types: &Types, file: u32, is_trusted: bool, decl: &FuncDecl) -> Option<LayoutFault>
    ensures { IsFrameFault types.now.gathered types.now.foreign
        (record { file = file; is_trusted = is_trusted; decl = decl.now }) result }
{
    if is_frame_too_large(types, is_trusted, decl) {
        Some(too_large_at(types.gathered(), file, decl.token))
    } else {
        None
    }
}

/// The fault of a function: its return type, then its parameters, and its marshalling structure last.
fn function_fault(
    types: &Types,
    file: u32,
    is_trusted: bool,
    decl: &FuncDecl,
) -> Option<LayoutFault>
    ensures { IsFunctionFault types.now.gathered types.now.foreign
        (record { file = file; is_trusted = is_trusted; decl = decl.now }) result }
{
    if is_unknown(types, &decl.result) {
        return Some(unknown_at(types.gathered(), file, decl.result.token));
    }
    match params_fault(types, file, decl.params.as_slice()) {
        Some(fault) => Some(fault),
        None => frame_fault(types, file, is_trusted, decl),
    }
}

/// The function of a pick, where there is one.
fn picked<'a>(gathered: &'a Gathered, is_trusted: bool, pick: &Pick) -> Option<&'a FuncDecl>
    ensures { option_map (λ d. record { file = pick.now.file; is_trusted = is_trusted; decl = d })
        (option_copied result) ≡ pick_of gathered.now is_trusted pick.now }
{
    let file = gathered.files.get(pick.file as usize)?;
    if is_trusted {
        file.tree.trusted.get(pick.index as usize)
    } else {
        file.tree.untrusted.get(pick.index as usize)
    }
}

/// The fault of a pick's function, where there is one.
fn pick_fault(types: &Types, is_trusted: bool, pick: &Pick) -> Option<LayoutFault>
    ensures { AreCheckedFunctions types.now.gathered types.now.foreign
        (filter_map (pick_of types.now.gathered is_trusted) (pick.now ∷ [])) result }
{
    match picked(types.gathered(), is_trusted, pick) {
        Some(decl) => function_fault(types, pick.file, is_trusted, decl),
        None => None,
    }
}

/// The fault of the first function of a side that has one.
fn side_fault(types: &Types, is_trusted: bool, picks: &[Pick]) -> Option<LayoutFault>
    ensures { AreCheckedFunctions types.now.gathered types.now.foreign
        (filter_map (pick_of types.now.gathered is_trusted) picks.now) result }
{
    for pick in picks {
        if let Some(fault) = pick_fault(types, is_trusted, pick) {
            return Some(fault);
        }
    }
    None
}

/// The fault of the first function that has one: the trusted ones in order, and then the untrusted ones.
fn functions_fault(types: &Types) -> Option<LayoutFault>
    ensures { AreCheckedFunctions types.now.gathered types.now.foreign
        (faults.functions types.now.gathered types.now.foreign) result }
{
    let gathered = types.gathered();
    match side_fault(types, true, gathered.trusted.as_slice()) {
        Some(fault) => Some(fault),
        None => side_fault(types, false, gathered.untrusted.as_slice()),
    }
}

/// Whether all functions are clean, or else the fault of the first that is not.
pub(crate) fn check_functions(types: &Types) -> Result<(), LayoutFault>
    ensures ok { OnOk result (All (faults.IsCleanFunction types.now.gathered types.now.foreign)
        (faults.functions types.now.gathered types.now.foreign)) }
    ensures err { IfErr result (faults.FaultAmong (faults.IsCleanFunction types.now.gathered types.now.foreign)
        (faults.FunctionFault types.now.gathered types.now.foreign)
        (faults.functions types.now.gathered types.now.foreign)) }
{
    match functions_fault(types) {
        Some(fault) => Err(fault),
        None => Ok(()),
    }
}
