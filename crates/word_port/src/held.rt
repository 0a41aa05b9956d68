//! A port that keeps one step back.

ghost use Rattle.std.specs.Prelude.{◌≡◌};
ghost use Rattle.word_port.specs.Port.{HasRoom};

use super::{Side, Step, WordPort};
use std::marker::Model;

/// A port of whose log the last step is kept back, for whoever takes the port back.
#[derive(Drop)]
pub struct Held<P: WordPort> {
    port: P,
}

impl<P: WordPort> Model for Held<P> {
    ghost use Rattle.word_port.specs.Port.{HasRoom};

    ghost Value = { P };

    ghost view = { λ held. held.port };

    ghost invariant = { λ held. HasRoom (P.state held.port) };
}

impl<P: WordPort> Held<P> {
    /// Keeps one step of the port back.
    pub fn new(port: P) -> Held<P>
        requires room { HasRoom (P.state port) }
        ensures { result ≡ port }
    {
        Held { port }
    }

    /// Gives the port back with its log, which takes at least one more step.
    pub fn into_port(self) -> P
        ensures port { result ≡ self }
        ensures room { HasRoom (P.state result) }
    {
        self.port
    }
}

/// All is as the port has it, with one step less to spare.
impl<P: WordPort> WordPort for Held<P> {
    ghost use Rattle.word_port.specs.Held.{with_step_held};

    ghost state = { λ held. with_step_held (P.state held) };

    fn spare(&self) -> u32 {
        self.port.spare() - 1
    }

    fn log(&self) -> &[Step] {
        self.port.log()
    }

    fn words(&self) -> u32 {
        self.port.words()
    }

    fn host(&self) -> u32 {
        self.port.host()
    }

    fn load(&mut self, side: Side, index: u32) -> u64 {
        self.port.load(side, index)
    }

    fn swap(&mut self, side: Side, index: u32, value: u64) -> u64 {
        self.port.swap(side, index, value)
    }

    fn add(&mut self, side: Side, index: u32, by: u64) -> u64 {
        self.port.add(side, index, by)
    }

    fn cas(&mut self, side: Side, index: u32, old: u64, new: u64) -> u64 {
        self.port.cas(side, index, old, new)
    }

    fn glance(&self, index: u32) -> u64 {
        self.port.glance(index)
    }
}
