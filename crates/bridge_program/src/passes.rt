//! The parts of a list that go over the parameters of a function.
ghost use Rattle.std.specs.Prelude.{◌≡◌, ◌++◌, OnOk};
ghost use Rattle.bridge_program.specs.Lists.{each, entry_of, once};
ghost use Rattle.bridge_program.specs.Passes.{instructions_of};

use crate::Instr;
use edl_interface::{Function, Param};
use sqlite_items::Items;
use std::alloc::AllocError;

/// What is done for each parameter in turn.
#[derive(Clone, Copy, Debug)]
pub enum Pass {
    Length,
    Outside,
    Entry,
    CopyOut,
    OLength,
    OWithin,
    OAdd,
    Field,
    OCopy,
    OBack,
}

impl Pass {
    /// Adds what is done for the parameter of this number.
    fn push(self, list: &mut Items<Instr>, number: u32, param: &Param) -> Result<(), AllocError>
        ensures { OnOk result (list.new ≡ list.old ++ instructions_of self number param.now) }
    {
        let class = &param.class;
        match self {
            Pass::Length => push_if(list, class.is_marshalled(), Instr::Length(number)),
            Pass::Outside => push_if(list, class.is_marshalled(), Instr::Outside(number)),
            Pass::Entry => push_entry(list, number, param),
            Pass::CopyOut => push_if(list, class.is_out(), Instr::CopyOut(number)),
            Pass::OLength => push_if(list, class.is_marshalled(), Instr::OLength(number)),
            Pass::OWithin => push_if(list, class.is_marshalled(), Instr::OWithin(number)),
            Pass::OAdd => push_if(list, class.is_marshalled(), Instr::OAdd(number)),
            Pass::Field => list.push(if class.is_marshalled() {
                Instr::OBuffer(number)
            } else {
                Instr::OField(number)
            }),
            Pass::OCopy => push_if(list, class.is_in(), Instr::OCopy(number)),
            Pass::OBack => push_if(list, class.is_out(), Instr::OBack(number)),
        }
    }
}

/// Adds an instruction where the test holds.
pub(crate) fn push_if(list: &mut Items<Instr>, test: bool, instr: Instr) -> Result<(), AllocError>
    ensures { OnOk result (list.new ≡ list.old ++ once test instr) }
{
    if test {
        list.push(instr)?;
    }
    Ok(())
}

/// Adds what is done with one parameter of an ECALL before the call.
fn push_entry(list: &mut Items<Instr>, number: u32, param: &Param) -> Result<(), AllocError>
    ensures { OnOk result (list.new ≡ list.old ++ entry_of number param.now) }
{
    if !param.class.is_marshalled() {
        return Ok(());
    }
    list.push(Instr::Divide(number))?;
    list.push(Instr::Alloc(number))?;
    list.push(if param.class.is_in() {
        Instr::CopyIn(number)
    } else {
        Instr::Zero(number)
    })?;
    push_if(list, param.class.is_text(), Instr::TextEnd(number))
}

/// Adds what is done for each parameter of a function in turn. A number that takes more than 32 bits is want of memory.
pub(crate) fn push_each(
    list: &mut Items<Instr>,
    function: &Function,
    pass: Pass,
) -> Result<(), AllocError>
    ensures { OnOk result (list.new ≡ list.old ++ each (instructions_of pass) function.now) }
{
    for (place, param) in function.params.as_slice().iter().enumerate() {
        let Ok(number) = u32::try_from(place) else {
            return Err(AllocError);
        };
        pass.push(list, number, param)?;
    }
    Ok(())
}
