//! Laws of ECALLs, as contracts: what the definition of an entry says of the events of its runs.
#![tactic(auto)]

ghost use Rattle.std.specs.Prelude.{ℕ, ◌≡◌, ◌↔◌, List, [], Ok, Err};
ghost use Rattle.sgx_base.specs.declared.Status.{Status};
ghost use Rattle.word_port.specs.Events.{Event};
ghost use Rattle.word_port.specs.Interaction.{IsRun};
ghost use Rattle.call_machine.specs.declared.Machine.{Machine};
ghost use Rattle.call_machine.specs.Context.{Context};
ghost use Rattle.call_machine.specs.Plain.{IsPlainMachine};
ghost use Rattle.call_machine.specs.Ecall.{Ocalls, Answered, actions_of, entered};
ghost use Rattle.call_laws.specs.Answering.{IsAnsweredRun};
ghost use Rattle.call_laws.specs.Examples.{Examples};
ghost use Rattle.call_laws.specs.Local.{IsLocal, IsLocalCall};
ghost use Rattle.call_laws.specs.Refusing.{IsRefusedRun};
ghost use Rattle.call_laws.specs.Undisturbed.{AreLegal, IsUndisturbedRun, AreQuietActions, IsQuiet, IsDirectCall};

/// An answered entry loads its frame once, then each `in` parameter that has a block once, then runs its body,
/// and then stores its return and each `out` parameter that has a block. Every address and every length is of the
/// frame's one copy. Events with these parts are such a run. OCALLs may do anything.
pub fn answered_run_law()
    ensures { (m : Machine) (ocalls : Ocalls) (cx : Context) (ordinal address : ℕ)
        (events : List Event) (done : Answered)
        → IsRun (entered m ocalls cx ordinal address) events (Ok done)
        ↔ IsAnsweredRun m ocalls cx ordinal address events done }
{}

/// The events of a refused entry are a beginning of such loads: none; or those of the frame, and then those of some
/// first parameters, the last of which may be a string that ended before its length. The status is that of the first
/// row that holds. Events with these parts are such a run.
pub fn refused_run_law()
    ensures { (m : Machine) (ocalls : Ocalls) (cx : Context) (ordinal address : ℕ)
        (events : List Event) (status : Status)
        → IsRun (entered m ocalls cx ordinal address) events (Err status)
        ↔ IsRefusedRun m cx ordinal address events status }
{}

/// Where the steps of an answered entry are a legal history with no race between them, each `in` copy is the bytes of
/// the words that it began with, and its body has the room that they leave. For a body that asks for nothing the words
/// afterwards are the same ones, with the return and then the `out` copies written; for one that makes no OCALL
/// those of host memory are so, whatever it does to its cells.
pub fn no_races_law()
    ensures copies { (m : Machine) (ocalls : Ocalls) (cx : Context) (ordinal address : ℕ)
        (words : List ℕ) (events : List Event) (done : Answered)
        → IsRun (entered m ocalls cx ordinal address) events (Ok done) → AreLegal words events
        → IsUndisturbedRun m ocalls cx ordinal address words events }
    ensures direct { (m : Machine) (ocalls : Ocalls) (cx : Context) (ordinal address : ℕ)
        (words : List ℕ) (events : List Event) (done : Answered) → IsQuiet m ordinal
        → IsRun (entered m ocalls cx ordinal address) events (Ok done) → AreLegal words events
        → IsDirectCall m cx ordinal address words events }
    ensures local { (m : Machine) (ocalls : Ocalls) (cx : Context) (ordinal address : ℕ)
        (words : List ℕ) (events : List Event) (done : Answered) → IsLocal m ordinal
        → IsRun (entered m ocalls cx ordinal address) events (Ok done) → AreLegal words events
        → IsLocalCall m ocalls cx ordinal address words events }
{}

/// The bodies of a machine that the engine runs make no OCALL where its interface has none.
pub fn local_bodies_law()
    ensures { (m : Machine) (ordinal : ℕ) → IsPlainMachine m → m.interface.ocalls ≡ [] → IsLocal m ordinal }
{}

/// A body with no step on a cell and no OCALL among its actions asks for nothing.
pub fn quiet_bodies_law()
    ensures { (m : Machine) (ordinal : ℕ) → AreQuietActions (actions_of m ordinal) → IsQuiet m ordinal }
{}

/// A small machine and runs of its ECALL, as they are computed.
pub fn examples()
    ensures { Examples }
{}
