//! Laws of a run's participants at the slots of both pools, as contracts: host threads, workers and racers keep to the
//! rules of slots, so what callers took is what workers served.
#![tactic(auto)]

ghost use Rattle.std.specs.Prelude.{ℕ, ◌≡◌, ◌≤◌, ◌^◌, List, [], ◌∷◌, ◌++◌, IsTrue};
ghost use Rattle.std.specs.List.{All};
ghost use Rattle.word_port.specs.declared.Step.{Step};
ghost use Rattle.word_port.specs.History.{history_of, words_in_the_end};
ghost use Rattle.word_port.specs.Limits.{Progress};
ghost use Rattle.word_port.specs.Events.{waits_in};
ghost use Rattle.word_port.specs.Interaction.{Interaction, AllRequests};
ghost use Rattle.word_port.specs.Runs.{Reaches, Runs};
ghost use Rattle.switchless.specs.declared.Pool.{Pool};
ghost use Rattle.switchless.specs.Slots.{is_offered};
ghost use Rattle.switchless.specs.Counts.{Agree, taken_in};
ghost use Rattle.switchless.specs.Caller.{caller, more_than_any};
ghost use Rattle.switchless.specs.Worker.{WorkerSetup, worker};
ghost use Rattle.switchless_laws.specs.Moments.{AreFree, KeepsSlots, LeavesSlots, IsHistory, IsCounted};
ghost use Rattle.switchless_laws.specs.Roles.{IsElsewhere};
ghost use Rattle.call_script.specs.declared.HostAct.{HostAct};
ghost use Rattle.call_machine.specs.declared.Machine.{Machine};
ghost use Rattle.call_machine.specs.Context.{first_context};
ghost use Rattle.call_machine.specs.Plain.{IsPlainMachine};
ghost use Rattle.call_machine.specs.Reported.{beginning, acts_at};
ghost use Rattle.call_machine.specs.Thread.{thread, racer_acts};
ghost use Rattle.pool_laws.specs.Example.{pooled_machine, calling, serving, handling, all_steps, the_call};
ghost use Rattle.pool_laws.specs.Keeping.{KeepsPool, AreApart};
ghost use Rattle.pool_laws.specs.Machines.{AreFitting, IsBoundedMachine, HasStackFor};
ghost use Rattle.pool_laws.specs.Participants.{trusted_worker, untrusted_worker, IsPoolOf, IsParticipantOf};

/// What a participant does from an empty log on keeps to the rules of a pool's slots, where its behaviour does; and
/// once its behaviour has ended, no word of its own stands in a slot. It makes no more waiting looks than it had.
pub fn logs_law<A>()
    ensures begun { (pool : Pool) (t rest : Interaction A) (before after : Progress) → KeepsPool pool t →
        before.port.log ≡ [] → before.waits ≤ more_than_any → Reaches t before after rest →
        KeepsSlots pool after.port.log }
    ensures ended { (pool : Pool) (t : Interaction A) (x : A) (before after : Progress) → KeepsPool pool t →
        before.port.log ≡ [] → before.waits ≤ more_than_any → Runs t before after x → LeavesSlots pool after.port.log }
    ensures looks { (t rest : Interaction A) (before after : Progress) (reached : Reaches t before after rest) →
        waits_in reached.events ≤ before.waits }
{}

/// A caller's role, in whatever pool it offers its word, keeps to the rules of every pool's slots.
pub fn caller_law()
    ensures { (pool own : Pool) (word : ℕ) → IsTrue (is_offered word) → KeepsPool pool (caller own word) }
{}

/// A worker's role keeps to the rules of a pool's slots where what it serves is on none of them; and where it works in
/// another pool and what it serves keeps to them, as where it serves ECALLs that make switchless OCALLs.
pub fn worker_law<R>()
    ensures own { (pool : Pool) (setup : WorkerSetup R) → IsElsewhere pool setup.stop →
        ((ordinal frame : ℕ) → AllRequests (λ q. IsElsewhere pool q.index) (setup.serve ordinal frame)) →
        KeepsPool pool (worker setup) }
    ensures other { (pool : Pool) (setup : WorkerSetup R) → IsElsewhere pool setup.stop → AreApart setup.pool pool →
        ((ordinal frame : ℕ) → KeepsPool pool (setup.serve ordinal frame)) → KeepsPool pool (worker setup) }
{}

/// Each participant of a run keeps to the rules of both pools' slots: a host thread, whatever it calls and however deep
/// its OCALLs are nested; a worker of either pool, also where the ECALLs that it serves make switchless OCALLs; and a
/// racer. A participant begins with no more waiting looks than these rules allow.
pub fn participants_law()
    ensures host_thread { (m : Machine) (pool : Pool) (participant : ℕ) (acts : List HostAct) →
        IsBoundedMachine m → IsPoolOf m pool → HasStackFor m.script.settings participant →
        AreFitting m.interface acts → KeepsPool pool (thread m (first_context m.script.settings participant) acts) }
    ensures trusted { (m : Machine) (pool : Pool) (participant limit : ℕ) →
        IsBoundedMachine m → IsPoolOf m pool → HasStackFor m.script.settings participant →
        KeepsPool pool (worker (trusted_worker m participant limit)) }
    ensures untrusted { (m : Machine) (pool : Pool) (limit : ℕ) → IsBoundedMachine m → IsPoolOf m pool →
        KeepsPool pool (worker (untrusted_worker m limit)) }
    ensures racer { (m : Machine) (pool : Pool) (acts : List HostAct) → IsBoundedMachine m → IsPoolOf m pool →
        KeepsPool pool (racer_acts m.script.settings.host acts) }
    ensures looks { (m : Machine) (limit : ℕ) → limit ≤ 2 ^ 32 → (beginning m limit).waits ≤ more_than_any }
{}

/// In a legal history of a machine's participants over free slots, and for each of its two pools: at each moment each
/// ordinal, frame and status was served as often as it was taken, and once more for each slot that holds it as done. In
/// the end every slot is free, and what was taken is what was served.
pub fn pools_law()
    ensures moments { (m : Machine) (pool : Pool) (words : List ℕ) (participants : List (List Step)) →
        (before after : List Step) → IsBoundedMachine m → IsPoolOf m pool → All (IsParticipantOf m) participants →
        IsHistory pool words participants (before ++ after) → IsCounted pool words before }
    ensures free { (m : Machine) (pool : Pool) (words : List ℕ) (participants : List (List Step)) →
        (whole : List Step) → IsBoundedMachine m → IsPoolOf m pool → All (IsParticipantOf m) participants →
        IsHistory pool words participants whole → AreFree pool (words_in_the_end words (history_of whole)) }
    ensures agree { (m : Machine) (pool : Pool) (words : List ℕ) (participants : List (List Step)) →
        (whole : List Step) → IsBoundedMachine m → IsPoolOf m pool → All (IsParticipantOf m) participants →
        IsHistory pool words participants whole → Agree pool participants }
{}

/// The machines that the engine runs are bounded; the acts of their thread fit, and it has its host stack.
pub fn plain_machines_law()
    ensures machine { (m : Machine) → IsPlainMachine m → IsBoundedMachine m }
    ensures acts { (m : Machine) → IsPlainMachine m → AreFitting m.interface (acts_at m 0) }
    ensures stack { (m : Machine) → IsPlainMachine m → HasStackFor m.script.settings 0 }
{}

/// There are histories as these laws speak of: a host thread calls, a worker serves the ECALL, and its body makes an
/// OCALL that a worker of the other pool serves.
pub fn example_law()
    ensures machine { IsBoundedMachine pooled_machine }
    ensures calling { IsParticipantOf pooled_machine calling }
    ensures serving { IsParticipantOf pooled_machine serving }
    ensures handling { IsParticipantOf pooled_machine handling }
    ensures history { (pool : Pool) → IsPoolOf pooled_machine pool →
        IsHistory pool pooled_machine.script.words (calling ∷ serving ∷ handling ∷ []) all_steps }
    ensures taken { (pool : Pool) → IsPoolOf pooled_machine pool → taken_in pool all_steps ≡ the_call ∷ [] }
{}
