//! Laws of passing by copy, as contracts: what an author relies on who writes `in` and `out`.
#![tactic(auto)]

ghost use Rattle.std.specs.Prelude.{ℕ, ◌≡◌, ◌≢◌, List};
ghost use Rattle.sgx_base.specs.declared.TheConstants.Status.{SUCCESS};
ghost use Rattle.word_port.specs.Events.{Event};
ghost use Rattle.word_port.specs.History.{Operation, IsLegal, words_in_the_end};
ghost use Rattle.word_port.specs.Interaction.{IsRun};
ghost use Rattle.call_report.specs.declared.Way.{Way};
ghost use Rattle.call_machine.specs.declared.Machine.{Machine};
ghost use Rattle.call_machine.specs.Context.{Context};
ghost use Rattle.call_machine.specs.Result.{Outcome};
ghost use Rattle.call_machine.specs.Sound.{IsSoundMachine};
ghost use Rattle.call_machine.specs.Ecall.{Ocalls, Answered, ecall_by};
ghost use Rattle.call_machine.specs.Ocall.{Handlers, ocall_by};
ghost use Rattle.call_laws.specs.Answering.{IsAnsweredRun};
ghost use Rattle.call_laws.specs.Undisturbed.{AreLegal, words_at_end, IsUndisturbedRun, IsQuiet, IsDirectCall};
ghost use Rattle.copy_laws.specs.Passing.{history_with, IsPassedByCopy};
ghost use Rattle.copy_laws.specs.Changing.{IsExactChange, ChangesItsAnswer, ChangesItsAnswerAlone};
ghost use Rattle.copy_laws.specs.Examples.{Examples};
ghost use Rattle.copy_laws.specs.Repeating.{AreSameCalls, IsSameAnswer};

/// An answered ECALL passes by copy: its frame and each `in` copy are the bytes of the words that it began with, and the
/// words in the end are those after its middle with the return and then each `out` copy written. OCALLs may stand in the
/// middle, and others may take part in it; before it and after it nothing stands between the call's own steps. A body
/// that asks for nothing has no middle: the call is a direct one on memory.
pub fn passing_by_copy_law()
    ensures middle { (m : Machine) (ocalls : Ocalls) (cx : Context) (ordinal address : ℕ)
        (words : List ℕ) (events : List Event) (done : Answered) (middle : List Operation)
        (run : IsAnsweredRun m ocalls cx ordinal address events done) → IsLegal words (history_with middle run)
        → IsPassedByCopy words middle run }
    ensures whole { (m : Machine) (ocalls : Ocalls) (cx : Context) (ordinal address : ℕ) (way : Way)
        (words : List ℕ) (events : List Event) (outcome : Outcome)
        → IsRun (ecall_by m ocalls cx ordinal address way) events outcome → AreLegal words events → outcome.status ≡ SUCCESS
        → IsUndisturbedRun m ocalls cx ordinal address words events }
    ensures direct { (m : Machine) (ocalls : Ocalls) (cx : Context) (ordinal address : ℕ) (way : Way)
        (words : List ℕ) (events : List Event) (outcome : Outcome) → IsQuiet m ordinal
        → IsRun (ecall_by m ocalls cx ordinal address way) events outcome → AreLegal words events → outcome.status ≡ SUCCESS
        → IsDirectCall m cx ordinal address words events }
{}

/// An answered ECALL changes its return and its `out` ranges alone: each word outside of them is as its middle left it,
/// and where no two parts of the answer overlap, the return's bytes and each `out` copy stand there. For a body that asks
/// for nothing the words outside are those that it began with. A refused ECALL changes nothing.
pub fn exact_change_law()
    ensures middle { (m : Machine) (handlers : Handlers) (cx : Context) (ordinal address : ℕ)
        (words : List ℕ) (events : List Event) (done : Answered) (middle : List Operation)
        (run : IsAnsweredRun m (ocall_by m handlers) cx ordinal address events done) → IsSoundMachine m
        → IsLegal words (history_with middle run)
        → IsExactChange run.function address run.frame run.copies.blocks run.finished.value run.finished.blocks
        (words_in_the_end words middle) (words_in_the_end words (history_with middle run)) }
    ensures whole { (m : Machine) (handlers : Handlers) (cx : Context) (ordinal address : ℕ) (way : Way)
        (words : List ℕ) (events : List Event) (outcome : Outcome) → IsSoundMachine m
        → IsRun (ecall_by m (ocall_by m handlers) cx ordinal address way) events outcome → AreLegal words events → outcome.status ≡ SUCCESS
        → ChangesItsAnswer m (ocall_by m handlers) cx ordinal address words events }
    ensures direct { (m : Machine) (handlers : Handlers) (cx : Context) (ordinal address : ℕ) (way : Way)
        (words : List ℕ) (events : List Event) (outcome : Outcome) → IsSoundMachine m → IsQuiet m ordinal
        → IsRun (ecall_by m (ocall_by m handlers) cx ordinal address way) events outcome → AreLegal words events → outcome.status ≡ SUCCESS
        → ChangesItsAnswerAlone m cx ordinal address words events }
    ensures refused { (m : Machine) (ocalls : Ocalls) (cx : Context) (ordinal address : ℕ) (way : Way)
        (words : List ℕ) (events : List Event) (outcome : Outcome)
        → IsRun (ecall_by m ocalls cx ordinal address way) events outcome → AreLegal words events → outcome.status ≢ SUCCESS
        → words_at_end words events ≡ words }
{}

/// Two ECALLs of one function that find the same bytes in their frames and their `in` ranges have the same status,
/// whatever else the words are; and where its body asks for nothing, they write the same value and the same `out` copies.
pub fn same_answer_law()
    ensures status { (m : Machine) (ocalls : Ocalls) (cx : Context) (ordinal address : ℕ) (way : Way)
        (words others : List ℕ) (events later : List Event) (outcome other : Outcome)
        → IsRun (ecall_by m ocalls cx ordinal address way) events outcome → AreLegal words events
        → IsRun (ecall_by m ocalls cx ordinal address way) later other → AreLegal others later
        → AreSameCalls m ordinal address words others → outcome.status ≡ other.status }
    ensures answer { (m : Machine) (ocalls : Ocalls) (cx : Context) (ordinal address : ℕ) (way : Way)
        (words others : List ℕ) (events later : List Event) (outcome other : Outcome) → IsQuiet m ordinal
        → IsRun (ecall_by m ocalls cx ordinal address way) events outcome → AreLegal words events
        → IsRun (ecall_by m ocalls cx ordinal address way) later other → AreLegal others later
        → AreSameCalls m ordinal address words others → outcome.status ≡ SUCCESS
        → IsSameAnswer m ordinal address words others (words_at_end words events) (words_at_end others later) }
{}

/// An ECALL whose `out` range lies over its own length is by copy: the one copy of the length counts, and the words in the
/// end hold the `out` bytes. Events that put back more bytes, by what stands there then, are no run of it. Where another
/// writes between its loads, its copy is not the bytes of the words that it began with.
pub fn examples()
    ensures { Examples }
{}
