//! Numbers that a body computes: operands, registers, and bytes of blocks.

ghost use Rattle.std.specs.Prelude.{◌≡◌, ◌<◌, ◌≤◌, ◌%◌, length, sum, slice_set, slice_index};
ghost use Rattle.arrayvec.specs.ArrayVec.{array_vec_len};
ghost use Rattle.body_vm.specs.State.{operand_over};
ghost use Rattle.body_vm.specs.Range.{IsOperand};

use crate::{Operand, Regs, Values};

/// Gives the answer of a request into a register.
pub fn answer(regs: &mut Regs, into: u8, value: u64)
    requires { into < 8 }
    ensures { regs.new ≡ record regs.old { regs = slice_set regs.old.regs into value } }
{
    regs.regs[usize::from(into)] = value;
}

/// The number of an operand.
pub(crate) fn number(operand: Operand, regs: &Regs, values: &Values) -> u64
    requires { IsOperand (array_vec_len values.now) operand }
    ensures { result ≡ operand_over regs.now.regs values.now.items operand }
{
    match operand {
        Operand::Number(number) => number,
        Operand::Reg(register) => regs.regs[usize::from(register)],
        Operand::Value(place) => values.as_slice()[place as usize],
    }
}

/// The number in a register.
pub(crate) fn register(register: u8, regs: &Regs) -> u64
    requires { register < 8 }
    ensures { result ≡ slice_index regs.now.regs register }
{
    regs.regs[usize::from(register)]
}

/// The sum of bytes, of which there are few enough.
pub(crate) fn sum_of(bytes: &[u8]) -> u64
    requires { length bytes.now ≤ 65536 }
    ensures { result ≡ sum bytes.now }
{
    let mut total = 0;
    for byte in bytes {
        total += u64::from(*byte);
    }
    total
}

/// The byte at a place, 0 where there is none.
pub(crate) fn byte_at(bytes: &[u8], place: u64) -> u64
    ensures { result ≡ slice_index bytes.now place }
{
    match bytes.get(place as usize) {
        Some(byte) => u64::from(*byte),
        None => 0,
    }
}

/// The low byte of a number.
pub(crate) fn low_byte(number: u64) -> u8
    ensures { result ≡ number % 256 }
{
    (number % 256) as u8
}
