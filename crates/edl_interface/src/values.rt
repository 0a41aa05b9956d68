//! The values of parameters, and the lengths of what they point to.
ghost use Rattle.std.specs.Prelude.{◌≡◌, ◌<◌, ◌≤◌, ◌^◌, SomeIff, length};
ghost use Rattle.edl_interface.specs.Parameters.{way_of, is_marshalled as is_marshalled_of, is_in as is_in_of, is_out as is_out_of, is_text as is_text_of, unit_of, field_size as field_size_of, has_frame as has_frame_of, return_size as return_size_of, field_of, address_in, value_at, value_in, IsWordSized};
ghost use Rattle.edl_interface.specs.Lengths.{amount_in, length_in, copied_length as copied_length_of};

use crate::bytes::{checked_little_endian, part, product};
use crate::{Amount, Class, Function, Param, Plain};
use sgx_base::{Passing, extended, read_little_endian};

impl Class {
    /// The way in which it is copied, where it is marshalled.
    fn way(&self) -> Option<Passing>
        ensures { result ≡ way_of self.now }
    {
        match *self {
            Class::Plain(_) | Class::UserCheck => None,
            Class::Buffer { way, .. } | Class::Text { way, .. } | Class::Fixed { way, .. } => Some(
                way,
            ),
            Class::Foreign { way } => way,
        }
    }

    /// Whether it is copied between host and enclave.
    pub fn is_marshalled(&self) -> bool
        ensures { result ≡ is_marshalled_of self.now }
    {
        self.way().is_some()
    }

    /// Whether it is copied in.
    pub fn is_in(&self) -> bool
        ensures { result ≡ is_in_of self.now }
    {
        matches!(self.way(), Some(Passing::Inward | Passing::Both))
    }

    /// Whether it is copied back.
    pub fn is_out(&self) -> bool
        ensures { result ≡ is_out_of self.now }
    {
        matches!(self.way(), Some(Passing::Outward | Passing::Both))
    }

    /// Whether it is a string.
    pub fn is_text(&self) -> bool
        ensures { result ≡ is_text_of self.now }
    {
        matches!(self, Class::Text { .. })
    }

    /// The size of an element in bytes, 1 where it has none.
    pub fn unit(&self) -> u32
        ensures { result ≡ unit_of self.now }
    {
        match *self {
            Class::Buffer { unit, .. } | Class::Text { unit, .. } | Class::Fixed { unit, .. } =>
                unit,
            Class::Plain(_) | Class::UserCheck | Class::Foreign { .. } => 1,
        }
    }

    /// The size of its field in bytes; a pointer's is 8.
    pub fn field_size(&self) -> u32
        ensures { result ≡ field_size_of self.now }
    {
        match *self {
            Class::Plain(plain) => plain.size,
            _ => 8,
        }
    }
}

impl Plain {
    /// The number that a field's bytes are at this type, as one of 64 bits, or None where it has more.
    fn checked_value(&self, bytes: &[u8]) -> Option<u64>
        requires { length bytes.now ≤ self.now.size }
        ensures { SomeIff result (value_at self.now bytes.now < 2 ^ 64) (value_at self.now bytes.now) }
    {
        match self.size {
            1..=8 => Some(extended(self.size, self.signed, read_little_endian(bytes))),
            _ => checked_little_endian(bytes),
        }
    }

    /// The number that a field's bytes are at this type, as one of 64 bits.
    fn value(&self, bytes: &[u8]) -> u64
        requires word { self.now.size ≤ 8 }
        requires field { length bytes.now ≤ self.now.size }
        ensures { result ≡ value_at self.now bytes.now }
    {
        if self.size == 0 {
            0
        } else {
            extended(self.size, self.signed, read_little_endian(bytes))
        }
    }
}

impl Param {
    /// The bytes of its field: fewer where the structure ends before.
    pub fn field<'a>(&self, frame: &'a [u8]) -> &'a [u8]
        ensures { result.now ≡ field_of frame.now self.now }
    {
        part(
            frame,
            self.offset as usize,
            self.class.field_size() as usize,
        )
    }

    /// The address in a pointer's or an array's field.
    pub fn address(&self, frame: &[u8]) -> u64
        ensures { result ≡ address_in frame.now self.now }
    {
        read_little_endian(part(frame, self.offset as usize, 8))
    }

    /// The number in its field as one of 64 bits, or None where it has more.
    fn checked_value(&self, frame: &[u8]) -> Option<u64>
        ensures { SomeIff result (value_in frame.now self.now < 2 ^ 64) (value_in frame.now self.now) }
    {
        match self.class {
            Class::Plain(plain) if plain.integer => plain.checked_value(self.field(frame)),
            Class::UserCheck => Some(self.address(frame)),
            _ => Some(0),
        }
    }

    /// The number in its field: that of an integer, an address, and 0 for what no body can name.
    pub fn value(&self, frame: &[u8]) -> u64
        requires { IsWordSized self.now.class }
        ensures { result ≡ value_in frame.now self.now }
    {
        match self.class {
            Class::Plain(plain) if plain.integer => plain.value(self.field(frame)),
            Class::UserCheck => self.address(frame),
            _ => 0,
        }
    }
}

impl Function {
    /// Whether it has a frame: a parameter or a return.
    pub fn has_frame(&self) -> bool
        ensures { result ≡ has_frame_of self.now }
    {
        self.params.len() != 0 || self.ret.is_some()
    }

    /// The return's size in bytes, 0 where there is none.
    pub fn return_size(&self) -> u32
        ensures { result ≡ return_size_of self.now }
    {
        match self.ret {
            Some(plain) => plain.size,
            None => 0,
        }
    }

    /// The number that a size or a count is, or None where it has more than 64 bits.
    fn amount(&self, frame: &[u8], amount: Amount) -> Option<u64>
        ensures { SomeIff result (amount_in self.now frame.now amount < 2 ^ 64) (amount_in self.now frame.now amount) }
    {
        match amount {
            Amount::Number(n) => Some(n),
            Amount::Param(place) => match self.params.get(place as usize) {
                Some(param) => param.checked_value(frame),
                None => Some(0),
            },
        }
    }

    /// The bytes that a marshalled parameter points to, or None where they are 2^64 or more.
    pub fn length(&self, frame: &[u8], param: &Param) -> Option<u64>
        ensures { SomeIff result (length_in self.now frame.now param.now < 2 ^ 64)
            (length_in self.now frame.now param.now) }
    {
        match param.class {
            Class::Buffer { size, count, .. } => product(
                self.amount(frame, size),
                self.amount(frame, count),
            ),
            Class::Text { .. } => Some(read_little_endian(part(
                frame,
                param.offset as usize + 8,
                8,
            ))),
            Class::Fixed { length, .. } => Some(u64::from(length)),
            Class::Plain(_) | Class::UserCheck | Class::Foreign { .. } => Some(0),
        }
    }

    /// The bytes that a marshalled parameter is copied at, 0 where its pointer is null, or None for 2^64 or more.
    pub fn copied_length(&self, frame: &[u8], param: &Param) -> Option<u64>
        ensures { SomeIff result (copied_length_of self.now frame.now param.now < 2 ^ 64)
            (copied_length_of self.now frame.now param.now) }
    {
        if param.address(frame) == 0 {
            Some(0)
        } else {
            self.length(frame, param)
        }
    }
}
