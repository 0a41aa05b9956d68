//! What the words of a body stand for: registers, blocks and values.

ghost use Rattle.std.specs.Prelude.{◌≡◌, ◌<◌, ◌≤◌, ◌+◌, ◌^◌, ◌&&◌, not, length, filter, position, is_some, IfSome};
ghost use Rattle.std.specs.Str.{bytes_eq};
ghost use Rattle.edl_interface.specs.Parameters.{is_marshalled};
ghost use Rattle.call_script.specs.BodyNames as spec;

use crate::spelling::is_dotted_name;
use body_vm::{Operand, Pass};
use edl_interface::{Class, Param};
use script_words::same;
use sgx_base::{Name, read_number};
use std::marker::Model;

/// The register that a word is: `r0` to `r7`.
pub fn register_of(word: &[u8]) -> Option<u8>
    ensures { result ≡ spec.register_of word.now }
{
    match word {
        [b'r', digit @ b'0'..=b'7'] => Some(*digit - b'0'),
        _ => None,
    }
}

/// Whether it is an integer, or an address that is not looked at.
fn is_value_class(class: &Class) -> bool
    ensures { result ≡ spec.is_value_class class.now }
{
    match *class {
        Class::Plain(plain) => plain.integer,
        Class::UserCheck => true,
        _ => false,
    }
}

fn is_opaque_class(class: &Class) -> bool
    ensures { result ≡ spec.is_opaque_class class.now }
{
    match *class {
        Class::Plain(plain) => !plain.integer,
        _ => false,
    }
}

/// The place of the parameter of this name among the marshalled ones.
fn marshalled_place(params: &[Param], word: &[u8]) -> Option<usize>
    ensures value { result ≡ position (λ p. bytes_eq word.now p.name) (filter (λ p. is_marshalled p.class) params.now) }
    ensures within { IfSome result (λ place. place < length params.now) }
{
    params
        .iter()
        .filter(|param| param.class.is_marshalled())
        .position(|param| same(word, param.name.bytes()))
}

fn marshalled_count(params: &[Param]) -> usize
    ensures count { result ≡ length (filter (λ p. is_marshalled p.class) params.now) }
    ensures within { result ≤ length params.now }
{
    params
        .iter()
        .filter(|param| param.class.is_marshalled())
        .count()
}

fn name_place(names: &[Name], word: &[u8]) -> Option<usize>
    ensures value { result ≡ position (bytes_eq word.now) names.now }
    ensures within { IfSome result (λ place. place < length names.now) }
{
    names.iter().position(|name| same(word, name.bytes()))
}

/// The place of the parameter of this name whose value can be had.
fn value_place(params: &[Param], word: &[u8]) -> Option<usize>
    ensures value { result ≡ position (λ p. bytes_eq p.name word.now && spec.is_value_class p.class) params.now }
    ensures within { IfSome result (λ place. place < length params.now) }
{
    params.iter().position(|param| same(param.name.bytes(), word) && is_value_class(&param.class))
}

/// The place of the parameter of this name that is opaque.
fn opaque_place(params: &[Param], word: &[u8]) -> Option<usize>
    ensures { result ≡ position (λ p. bytes_eq p.name word.now && spec.is_opaque_class p.class) params.now }
{
    params.iter().position(|param| same(param.name.bytes(), word) && is_opaque_class(&param.class))
}

fn param_place(params: &[Param], word: &[u8]) -> Option<usize>
    ensures { result ≡ position (λ p. bytes_eq p.name word.now) params.now }
{
    params
        .iter()
        .position(|param| same(param.name.bytes(), word))
}

/// The names of a body: the parameters of its function, and its temporaries in order.
#[derive(Drop)]
pub struct BodyNames<'a> {
    params: &'a [Param],
    temporaries: &'a [Name],
}

impl<'a> Model for BodyNames<'a> {
    ghost use Rattle.std.specs.Prelude.{◌+◌, ◌<◌, ◌^◌, length};
    ghost use Rattle.call_script.specs.BodyNames as spec;

    ghost Value = { spec.BodyNames };

    ghost view = { λ n. record { params = n.params.now; temporaries = n.temporaries.now } };

    ghost invariant = { λ n. length n.params.now + length n.temporaries.now < 2 ^ 32 };
}

impl<'a> BodyNames<'a> {
    pub fn new(params: &'a [Param], temporaries: &'a [Name]) -> BodyNames<'a>
        requires { length params.now + length temporaries.now < 2 ^ 32 }
        ensures { result ≡ record { params = params.now; temporaries = temporaries.now } }
    {
        BodyNames {
            params,
            temporaries,
        }
    }

    /// The block of this name: the marshalled parameters stand before the temporaries.
    #[tactic(auto, using(crate::proofs::NameLaws::blocks))]
    pub fn block_of(&self, word: &[u8]) -> Option<u32>
        ensures { result ≡ spec.block_of self.now word.now }
    {
        match marshalled_place(self.params, word) {
            Some(place) => Some(place as u32),
            None => match name_place(self.temporaries, word) {
                Some(place) => Some((marshalled_count(self.params) + place) as u32),
                None => None,
            },
        }
    }

    /// The place of the parameter whose value the word is.
    fn value_of(&self, word: &[u8]) -> Option<u32>
        ensures { result ≡ spec.param_of spec.is_value_class self.now word.now }
    {
        match value_place(self.params, word) {
            Some(place) => Some(place as u32),
            None => None,
        }
    }

    /// The number, the register, or else the integer or `user_check` parameter that a word is.
    pub fn operand_of(&self, word: &[u8]) -> Option<Operand>
        ensures { result ≡ spec.operand_of self.now word.now }
    {
        if let Some(number) = read_number(word) {
            return Some(Operand::Number(number));
        }
        if let Some(register) = register_of(word) {
            return Some(Operand::Reg(register));
        }
        match self.value_of(word) {
            Some(place) => Some(Operand::Value(place)),
            None => None,
        }
    }

    /// `null`, or the block of this name.
    fn block_pass(&self, word: &[u8]) -> Option<Pass>
        ensures { result ≡ spec.block_pass self.now word.now }
    {
        if same(word, b"null") {
            return Some(Pass::Bytes(None));
        }
        match self.block_of(word) {
            Some(place) => Some(Pass::Bytes(Some(place))),
            None => None,
        }
    }

    /// What the word passes for a parameter of an OCALL.
    pub fn pass_of(&self, param: &Param, word: &[u8]) -> Option<Pass>
        ensures { result ≡ spec.pass_of self.now param.now word.now }
    {
        if param.class.is_marshalled() {
            return self.block_pass(word);
        }
        match self.operand_of(word) {
            Some(operand) => Some(Pass::Value(operand)),
            None => None,
        }
    }

    #[tactic(auto, using(crate::proofs::NameLaws::any_param))]
    fn is_param(&self, word: &[u8]) -> bool
        ensures { result ≡ spec.is_param self.now word.now }
    {
        param_place(self.params, word).is_some()
    }

    /// Whether the word is an opaque value, where a value has to be.
    fn is_opaque_argument(&self, param: &Param, word: &[u8]) -> bool
        ensures { result ≡ not (is_marshalled param.now.class)
            && is_some (spec.param_of spec.is_opaque_class self.now word.now) }
    {
        !param.class.is_marshalled() && opaque_place(self.params, word).is_some()
    }

    /// Whether the word stands for something in the body, wherever it may stand.
    fn is_known(&self, word: &[u8]) -> bool
        ensures { result ≡ spec.is_known self.now word.now }
    {
        register_of(word).is_some()
            || self.block_of(word).is_some()
            || self.is_param(word)
            || same(word, b"null")
    }

    /// Whether the word, for a parameter of an OCALL, is a name that stands for nothing, or of an opaque value.
    pub fn is_unknown_argument(&self, param: &Param, word: &[u8]) -> bool
        ensures { result ≡ spec.is_unknown_argument self.now param.now word.now }
    {
        self.pass_of(param, word).is_none()
            && is_dotted_name(word)
            && (!self.is_known(word) || self.is_opaque_argument(param, word))
    }

    /// Whether the word, for a parameter of an OCALL, does not fit for another reason.
    pub fn is_wrong_pass(&self, param: &Param, word: &[u8]) -> bool
        ensures { result ≡ spec.is_wrong_pass self.now param.now word.now }
    {
        self.pass_of(param, word).is_none() && !self.is_unknown_argument(param, word)
    }
}
