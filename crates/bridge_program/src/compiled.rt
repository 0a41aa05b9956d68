//! The bridges of an interface.
ghost use Rattle.std.specs.Prelude.{◌≡◌, IfOk};
ghost use Rattle.bridge_program.specs.Lists.{any_marshalled, ecall_list as ecall_list_of, frame_list as frame_list_of, ocall_list as ocall_list_of};
ghost use Rattle.bridge_program.specs.Tables.{bridges_of, ecall_bridge as ecall_bridge_of, ocall_bridge as ocall_bridge_of};

use crate::Instr;
use crate::bridges::{Bridges, EcallBridge, OcallBridge};
use crate::passes::{Pass, push_each, push_if};
use edl_interface::{Function, Interface};
use sqlite_items::Items;
use std::alloc::{AllocError, Global};

/// Whether a parameter is copied between host and enclave.
fn has_marshalled(function: &Function) -> bool
    ensures { result ≡ any_marshalled function.now }
{
    function
        .params
        .as_slice()
        .iter()
        .any(|param| param.class.is_marshalled())
}

/// The bridge of an ECALL.
fn ecall_list(alloc: Global, function: &Function) -> Result<Items<Instr>, AllocError>
    ensures { IfOk result (λ list. list ≡ ecall_list_of function.now) }
{
    let mut list = Items::new(alloc);
    list.push(Instr::Begin)?;
    list.push(if function.has_frame() {
        Instr::Frame
    } else {
        Instr::NoFrame
    })?;
    push_each(&mut list, function, Pass::Length)?;
    push_each(&mut list, function, Pass::Outside)?;
    push_if(&mut list, has_marshalled(function), Instr::Fence)?;
    push_each(&mut list, function, Pass::Entry)?;
    list.push(Instr::Call)?;
    push_if(&mut list, function.ret.is_some(), Instr::PutReturn)?;
    push_each(&mut list, function, Pass::CopyOut)?;
    list.push(Instr::End)?;
    Ok(list)
}

/// The proxy of an OCALL that has a frame.
fn frame_list(alloc: Global, function: &Function) -> Result<Items<Instr>, AllocError>
    ensures { IfOk result (λ list. list ≡ frame_list_of function.now) }
{
    let mut list = Items::new(alloc);
    list.push(Instr::OBegin)?;
    push_each(&mut list, function, Pass::OLength)?;
    push_each(&mut list, function, Pass::OWithin)?;
    list.push(Instr::OTotal)?;
    push_each(&mut list, function, Pass::OAdd)?;
    list.push(Instr::OTake)?;
    push_each(&mut list, function, Pass::Field)?;
    push_each(&mut list, function, Pass::OCopy)?;
    list.push(Instr::OEnter)?;
    push_if(&mut list, function.ret.is_some(), Instr::OReturn)?;
    push_each(&mut list, function, Pass::OBack)?;
    list.push(Instr::OEnd)?;
    Ok(list)
}

/// The proxy of an OCALL.
fn ocall_list(alloc: Global, function: &Function) -> Result<Items<Instr>, AllocError>
    ensures { IfOk result (λ list. list ≡ ocall_list_of function.now) }
{
    if function.has_frame() {
        frame_list(alloc, function)
    } else {
        Items::from_slice(alloc, &[Instr::OBegin, Instr::OEnter, Instr::OEnd])
    }
}

/// An ECALL's entry in the table.
fn ecall_bridge(alloc: Global, function: &Function) -> Result<EcallBridge, AllocError>
    ensures { IfOk result (λ bridge. bridge ≡ ecall_bridge_of function.now) }
{
    let list = ecall_list(alloc, function)?;
    Ok(EcallBridge {
        is_private: !function.is_public,
        list,
    })
}

/// An OCALL's entry in the table.
fn ocall_bridge(alloc: Global, function: &Function) -> Result<OcallBridge, AllocError>
    ensures { IfOk result (λ bridge. bridge ≡ ocall_bridge_of function.now) }
{
    let allow = Items::from_slice(alloc, function.allow.as_slice())?;
    let list = ocall_list(alloc, function)?;
    Ok(OcallBridge { allow, list })
}

/// The tables of an interface, with the list of each function's bridge.
pub fn compile(alloc: Global, interface: &Interface) -> Result<Bridges, AllocError>
    ensures { IfOk result (λ bridges. bridges ≡ bridges_of interface.now) }
{
    let mut ecalls = Items::new(alloc);
    for function in interface.ecalls.as_slice() {
        ecalls.push(ecall_bridge(alloc, function)?)?;
    }
    let mut ocalls = Items::new(alloc);
    for function in interface.ocalls.as_slice() {
        ocalls.push(ocall_bridge(alloc, function)?)?;
    }
    Ok(Bridges { ecalls, ocalls })
}
