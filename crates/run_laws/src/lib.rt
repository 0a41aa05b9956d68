//! Laws of whole runs, as contracts: what every run of a machine's first thread keeps, whatever the words answer.
#![tactic(auto)]

ghost use Rattle.std.specs.Prelude.{ℕ, ◌≡◌, List};
ghost use Rattle.word_port.specs.declared.RunFull.{RunFull};
ghost use Rattle.word_port.specs.declared.Step.{Step};
ghost use Rattle.word_port.specs.Events.{steps_of};
ghost use Rattle.word_port.specs.Limits.{Progress};
ghost use Rattle.word_port.specs.Runs.{Runs};
ghost use Rattle.call_script.specs.declared.HostAct.{HostAct};
ghost use Rattle.call_machine.specs.declared.Machine.{Machine};
ghost use Rattle.call_machine.specs.Context.{Context};
ghost use Rattle.call_machine.specs.Result.{Outcome};
ghost use Rattle.call_machine.specs.Sound.{IsSoundMachine};
ghost use Rattle.call_machine.specs.Reported.{IsReportOf, IsCutBy, beginning, first_thread};
ghost use Rattle.call_machine.specs.Thread.{thread};
ghost use Rattle.run_laws.specs.Protected.{IsProtectedRun};
ghost use Rattle.run_laws.specs.Examples.{Examples};
ghost use Rattle.run_laws.specs.OneRun.{HaveSameAnswers, IsWholeRun};
ghost use Rattle.run_laws.specs.Reports.{IsProtectedReport};

/// Every run of a machine's first thread is protected, whatever its words answered: OCALLs may be nested as deep as the
/// call stack goes.
pub fn run_law()
    ensures { (m : Machine) (limit : ℕ) (after : Progress) (outcome : Outcome) → IsSoundMachine m
        → Runs (first_thread m) (beginning m limit) after outcome
        → IsProtectedRun m outcome.records after.port.log }
{}

/// The report of a machine is that of a protected run.
pub fn report_law()
    ensures { (m : Machine) (text : List ℕ) → IsSoundMachine m → IsReportOf m text → IsProtectedReport m text }
{}

/// A machine's run is whole or cut: what has a report is cut by no limit, and what is cut is cut by one limit.
pub fn whole_or_cut_law()
    ensures whole { (m : Machine) (text : List ℕ) (full : RunFull) → IsReportOf m text → ¬ IsCutBy m full }
    ensures one_limit { (m : Machine) (full other : RunFull) → IsCutBy m full → IsCutBy m other → full ≡ other }
{}

/// A script has one run: two runs of a machine's first thread that are legal on its words with its races have one outcome
/// and one log. Of two runs of the same acts under the same answers neither is a proper beginning of the other: they are
/// one, whoever makes them and wherever on the call stack.
pub fn one_run_law()
    ensures one { (m : Machine) (outcome other : Outcome) (log another : List Step)
        → IsWholeRun m outcome log → IsWholeRun m other another → (outcome ≡ other) × (log ≡ another) }
    ensures no_beginning { (m : Machine) (cx : Context) (acts : List HostAct) (start after end : Progress)
        (outcome other : Outcome)
        (run : Runs (thread m cx acts) start after outcome) (second : Runs (thread m cx acts) start end other)
        → HaveSameAnswers (steps_of run.events) (steps_of second.events)
        → (outcome ≡ other) × (steps_of run.events ≡ steps_of second.events) }
{}

/// One run of a small machine as it is computed, which is protected; and logs and records that are no protected run of
/// it: a load that is made once more, a store to a byte of no call, a refusal with another status than the first row's.
pub fn examples()
    ensures { Examples }
{}
