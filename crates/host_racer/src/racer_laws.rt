//! Laws of racers, as contracts.

ghost use Rattle.std.specs.Prelude.{ℕ, ◌≡◌, List, All};
ghost use Rattle.edl_interface.specs.declared.Interface.{Interface};
ghost use Rattle.word_port.specs.Events.{Event, steps_of};
ghost use Rattle.word_port.specs.Interaction.{IsBegun};
ghost use Rattle.call_script.specs.Sound.{AreSoundActs, OfRacer};
ghost use Rattle.call_script.specs.declared.HostAct.{HostAct};
ghost use Rattle.call_machine.specs.Thread.{racer_acts};
ghost use Rattle.host_racer.specs.Racing.{AreRacerActs, IsRacerStep, raced};
ghost use Rattle.host_racer.specs.Writes.{writes_of, asks_all};

/// The acts of a racer in a sound script may be done in its host memory.
pub fn sound_racers_law()
    ensures { (i : Interface) (host : ℕ) (acts : List HostAct) → AreSoundActs i host OfRacer acts
        → AreRacerActs host acts }
{}

/// Whatever the words answer, a racer only writes host bytes, by its own side: each step of its run, whole or begun, is
/// such a write.
pub fn racer_steps_law()
    ensures { (host : ℕ) (acts : List HostAct) (events : List Event) → AreRacerActs host acts
        → IsBegun (racer_acts host acts) events → All (IsRacerStep host) (steps_of events) }
{}

/// What a racer does is the writes of its acts in order, each byte of a poke in rising address and a repeat's acts so
/// many times, whatever is answered. No reply comes of it and no record.
pub fn racer_writes_law()
    ensures { (host : ℕ) (acts : List HostAct) → AreRacerActs host acts
        → racer_acts host acts ≡ asks_all (writes_of acts) raced }
{}
