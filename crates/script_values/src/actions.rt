//! The actions of bodies: what may be wrong with their words, and what they mean.

ghost use Rattle.std.specs.Prelude.{◌≡◌, ◌<◌, ◌-◌, ◌^◌, false, unwrap_or};
ghost use Rattle.body_vm.specs.declared.Operand.TheVariants as operand;
ghost use Rattle.sgx_base.specs.Numbers.{spelled_number};
ghost use Rattle.call_script.specs.BodyNames as names;
ghost use Rattle.call_script.specs.Line.{Register, Block, Value, CellNumber, SkipCount};
ghost use Rattle.call_script.specs.Arguments.{number_of};
ghost use Rattle.call_script.specs.Parts.{any_part, is_no_cell, is_skip_past};
ghost use Rattle.script_lines.specs.Lines.{calculation_of, phrase_of};
ghost use Rattle.script_values.specs.Actions as spec;

use crate::body_names::{BodyNames, register_of};
use crate::spelling::{is_dotted_name, is_wide};
use body_vm::{Action, Operand};
use script_lines::{ActionWords, Calculation};
use script_words::{is_number, number_of};

/// A rule of the words of actions.
#[derive(Drop)]
pub enum WordRule<'a> {
    /// Where a name or a number has to be, there is none.
    NoName,
    /// A number is above 64 bits.
    WideNumber,
    /// A name stands for nothing in this body.
    UnknownName(&'a BodyNames<'a>),
    /// The number of a cell is not below this.
    NoCell(u64),
    /// More actions are passed over than these.
    SkipPast(u64),
}

impl WordRule<'_> {
    fn at_register(&self, word: &[u8]) -> bool
        ensures { result ≡ spec.is_broken self.now Register word.now }
    {
        match *self {
            WordRule::NoName => !is_dotted_name(word),
            WordRule::UnknownName(_) => is_dotted_name(word) && register_of(word).is_none(),
            _ => false,
        }
    }

    fn at_block(&self, word: &[u8]) -> bool
        ensures { result ≡ spec.is_broken self.now Block word.now }
    {
        match *self {
            WordRule::NoName => !is_dotted_name(word),
            WordRule::UnknownName(names) => is_dotted_name(word) && names.block_of(word).is_none(),
            _ => false,
        }
    }

    fn at_value(&self, word: &[u8]) -> bool
        ensures { result ≡ spec.is_broken self.now Value word.now }
    {
        match *self {
            WordRule::NoName => !is_number(word) && !is_dotted_name(word),
            WordRule::WideNumber => is_wide(word),
            WordRule::UnknownName(names) => is_dotted_name(word)
                && names.operand_of(word).is_none(),
            _ => false,
        }
    }

    fn at_cell(&self, word: &[u8]) -> bool
        ensures { result ≡ spec.is_broken self.now CellNumber word.now }
    {
        match *self {
            WordRule::WideNumber => is_wide(word),
            WordRule::NoCell(cells) => cells <= number_of(word),
            _ => false,
        }
    }

    fn at_count(&self, word: &[u8]) -> bool
        ensures { result ≡ spec.is_broken self.now SkipCount word.now }
    {
        match *self {
            WordRule::WideNumber => is_wide(word),
            WordRule::SkipPast(left) => left < number_of(word),
            _ => false,
        }
    }
}

/// The register that a word is, 0 where it is none.
pub fn register_or_zero(word: &[u8]) -> u8
    ensures { result ≡ unwrap_or (names.register_of word.now) 0 }
{
    register_of(word).unwrap_or(0)
}

/// The number of a cell, or how many actions are passed over.
fn small_number(word: &[u8]) -> u32
    requires { number_of word.now < 2 ^ 32 }
    ensures { result ≡ unwrap_or (spelled_number word.now) 0 }
{
    number_of(word) as u32
}

impl BodyNames<'_> {
    /// The block of this name, 0 where there is none.
    pub fn block_or_zero(&self, word: &[u8]) -> u32
        ensures { result ≡ unwrap_or (names.block_of self.now word.now) 0 }
    {
        self.block_of(word).unwrap_or(0)
    }

    fn operand_or_zero(&self, word: &[u8]) -> Operand
        ensures { result ≡ unwrap_or (names.operand_of self.now word.now) (operand.Number 0) }
    {
        self.operand_of(word).unwrap_or(Operand::Number(0))
    }
}

/// The action of a calculation.
fn calculated(calculation: Calculation, register: u8, operand: Operand) -> Action
    ensures { result ≡ calculation_of calculation register operand }
{
    match calculation {
        Calculation::Set => Action::Set(register, operand),
        Calculation::Add => Action::Add(register, operand),
        Calculation::Sub => Action::Sub(register, operand),
        Calculation::Mul => Action::Mul(register, operand),
        Calculation::And => Action::And(register, operand),
        Calculation::Or => Action::Or(register, operand),
        Calculation::Xor => Action::Xor(register, operand),
    }
}

impl WordRule<'_> {
    /// Whether one of an action's words breaks the rule.
    pub fn is_broken_by(&self, action: &ActionWords) -> bool
        ensures { result ≡ any_part (spec.is_broken self.now) (phrase_of action.now).parts }
    {
        match *action {
            ActionWords::Calculate {
                register,
                value,
                ..
            } => self.at_register(register) || self.at_value(value),
            ActionWords::Len { register, block } | ActionWords::Sum { register, block } =>
                self.at_register(register) || self.at_block(block),
            ActionWords::Get {
                register,
                block,
                place,
            } => self.at_register(register) || self.at_block(block) || self.at_value(place),
            ActionWords::Put {
                block,
                place,
                value,
            } => self.at_block(block) || self.at_value(place) || self.at_value(value),
            ActionWords::Fill { block, value } => self.at_block(block) || self.at_value(value),
            ActionWords::Copy { target, source } => self.at_block(target) || self.at_block(source),
            ActionWords::Cload { register, cell } => self.at_register(register)
                || self.at_cell(cell),
            ActionWords::Cswap {
                register,
                cell,
                value,
            }
            | ActionWords::Cadd {
                register,
                cell,
                value,
            } => self.at_register(register) || self.at_cell(cell) || self.at_value(value),
            ActionWords::Ccas {
                register,
                cell,
                expected,
                value,
            } => {
                self.at_register(register)
                    || self.at_cell(cell)
                    || self.at_value(expected)
                    || self.at_value(value)
            }
            ActionWords::Skipz { register, count } | ActionWords::Skipnz { register, count } =>
                self.at_register(register) || self.at_count(count),
            ActionWords::Return { value } => self.at_value(value),
            ActionWords::End => false,
        }
    }
}

impl BodyNames<'_> {
    /// The action that these words are in a body with these names.
    #[tactic(auto, using(crate::proofs::ActionLaws::below, crate::proofs::ActionLaws::not_above))]
    pub fn action(&self, words: &ActionWords) -> Action
        requires cells { any_part (is_no_cell (2 ^ 32)) (phrase_of words.now).parts ≡ false }
        requires skips { any_part (is_skip_past (2 ^ 32 - 1)) (phrase_of words.now).parts ≡ false }
        ensures { result ≡ (phrase_of words.now).meaning self.now }
    {
        match *words {
            ActionWords::Calculate {
                calculation,
                register,
                value,
            } => calculated(
                calculation,
                register_or_zero(register),
                self.operand_or_zero(value),
            ),
            ActionWords::Len { register, block } => Action::Len(
                register_or_zero(register),
                self.block_or_zero(block),
            ),
            ActionWords::Sum { register, block } => Action::Sum(
                register_or_zero(register),
                self.block_or_zero(block),
            ),
            ActionWords::Get {
                register,
                block,
                place,
            } => Action::Get(
                register_or_zero(register),
                self.block_or_zero(block),
                self.operand_or_zero(place),
            ),
            ActionWords::Put {
                block,
                place,
                value,
            } => Action::Put(
                self.block_or_zero(block),
                self.operand_or_zero(place),
                self.operand_or_zero(value),
            ),
            ActionWords::Fill { block, value } => Action::Fill(
                self.block_or_zero(block),
                self.operand_or_zero(value),
            ),
            ActionWords::Copy { target, source } => Action::Copy(
                self.block_or_zero(target),
                self.block_or_zero(source),
            ),
            ActionWords::Cload { register, cell } => Action::Cload(
                register_or_zero(register),
                small_number(cell),
            ),
            ActionWords::Cswap {
                register,
                cell,
                value,
            } => Action::Cswap(
                register_or_zero(register),
                small_number(cell),
                self.operand_or_zero(value),
            ),
            ActionWords::Cadd {
                register,
                cell,
                value,
            } => Action::Cadd(
                register_or_zero(register),
                small_number(cell),
                self.operand_or_zero(value),
            ),
            ActionWords::Ccas {
                register,
                cell,
                expected,
                value,
            } => Action::Ccas(
                register_or_zero(register),
                small_number(cell),
                self.operand_or_zero(expected),
                self.operand_or_zero(value),
            ),
            ActionWords::Skipz { register, count } => Action::Skipz(
                register_or_zero(register),
                small_number(count),
            ),
            ActionWords::Skipnz { register, count } => Action::Skipnz(
                register_or_zero(register),
                small_number(count),
            ),
            ActionWords::Return { value } => Action::Return(self.operand_or_zero(value)),
            ActionWords::End => Action::Return(Operand::Number(0)),
        }
    }
}
