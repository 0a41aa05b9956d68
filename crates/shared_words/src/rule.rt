//! The rule that the table keeps, and what its steps tell.

use atomic_table::{Join, Play, Split, TableRule};
use std::collections::LinkedList;
use std::marker::PhantomData;
use word_port::Step;

/// What a seat knows. It stands in proofs alone: no value of it is made.
pub struct View {
    /// The steps that the seat has made.
    pub own: LinkedList<Step>,
    /// In the keeper, the logs of the seats that have been joined.
    pub ended: LinkedList<LinkedList<Step>>,
    /// How many of the words are host bytes.
    pub host: u32,
    /// In the keeper, how many seats have not been joined.
    pub due: u64,
    /// Whether the seat has been joined.
    pub spent: bool,
}

/// The words at the start, and how many of them are host bytes.
#[derive(Drop)]
pub struct Start {
    pub words: Vec<u64>,
    pub host: u32,
}

/// Some legal history of the steps in all views leads to the words.
pub struct Law;

impl TableRule<u8, View, Start> for Law {
    ghost use Rattle.shared_words.specs.Rule.{IsKept, first_view};

    ghost holds = { λ start s. IsKept start.words.items start.host s.words s.views };

    ghost first = { λ start. first_view start.host };
}

/// What a step does to its word, as a type.
pub trait OfKind {
    ghost use Rattle.word_port.specs.declared.Kind.{Kind};

    ghost kind: { Kind };
}

pub struct Loading;

impl OfKind for Loading {
    ghost use Rattle.word_port.specs.declared.Kind.TheVariants.{Load};

    ghost kind = { Load };
}

pub struct Swapping;

impl OfKind for Swapping {
    ghost use Rattle.word_port.specs.declared.Kind.TheVariants.{Swap};

    ghost kind = { Swap };
}

pub struct Adding;

impl OfKind for Adding {
    ghost use Rattle.word_port.specs.declared.Kind.TheVariants.{Add};

    ghost kind = { Add };
}

pub struct Exchanging;

impl OfKind for Exchanging {
    ghost use Rattle.word_port.specs.declared.Kind.TheVariants.{Cas};

    ghost kind = { Cas };
}

/// Who makes a step, as a type.
pub trait OfSide {
    ghost use Rattle.word_port.specs.declared.Side.{Side};

    ghost side: { Side };
}

pub struct ByEnclave;

impl OfSide for ByEnclave {
    ghost use Rattle.word_port.specs.declared.Side.TheVariants.{Enclave};

    ghost side = { Enclave };
}

pub struct ByHost;

impl OfSide for ByHost {
    ghost use Rattle.word_port.specs.declared.Side.TheVariants.{Host};

    ghost side = { Host };
}

pub struct ByPool;

impl OfSide for ByPool {
    ghost use Rattle.word_port.specs.declared.Side.TheVariants.{Pool};

    ghost side = { Pool };
}

pub struct ByRacer;

impl OfSide for ByRacer {
    ghost use Rattle.word_port.specs.declared.Side.TheVariants.{Racer};

    ghost side = { Racer };
}

/// A step of this kind by this side: the seat's own list gains it.
pub struct Makes<K: OfKind, T: OfSide> {
    of: PhantomData<(K, T)>,
}

impl<K: OfKind, T: OfSide> Play<u8, View> for Makes<K, T> {
    ghost use Rattle.shared_words.specs.Rule.{IsStep, request};

    ghost then = { λ step before found after.
        IsStep (request T.side K.kind step.word step.first step.second) before found after };
}

/// A seat that comes, and one that ends.
pub struct Seating;

impl Split<View> for Seating {
    ghost use Rattle.shared_words.specs.Rule.{one_more_due, newcomer};

    ghost left = { one_more_due };

    ghost right = { newcomer };
}

impl Join<View> for Seating {
    ghost use Rattle.shared_words.specs.Rule.{with_ended, spent_view};

    ghost both = { with_ended };

    ghost spent = { spent_view };
}
