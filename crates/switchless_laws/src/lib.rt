//! Laws of switchless calls, as contracts: calls that workers served and calls that callers took are the same.
#![tactic(auto)]

ghost use Rattle.std.specs.Prelude.{ℕ, ◌≡◌, ◌<◌, ◌^◌, List, [], ◌∷◌, ◌++◌, IsTrue, Option};
ghost use Rattle.std.specs.List.{All, Contains};
ghost use Rattle.word_port.specs.declared.Step.{Step};
ghost use Rattle.word_port.specs.Interaction.{Interaction, ret};
ghost use Rattle.word_port.specs.History.{IsLegal, history_of, words_in_the_end, IsShuffleOf};
ghost use Rattle.switchless.specs.declared.Pool.{Pool};
ghost use Rattle.switchless.specs.Slots.{place_of_frame, offered_word, is_offered, is_done, done_word, ordinal_in, place_in, frame_in, status_in};
ghost use Rattle.switchless.specs.Counts.{taken_in, served_in, Agree};
ghost use Rattle.switchless_laws.specs.Moments.{IsSlotOf, AreFree, HoldsNothing, KeepsSlots, LeavesSlots, IsSettledMoment, IsHistory, IsCounted};
ghost use Rattle.switchless_laws.specs.Phases.{Phase, idle, KeepsSlot};
ghost use Rattle.switchless_laws.specs.Held.{held_in};
ghost use Rattle.switchless_laws.specs.Example.{one_slot, calling, working, calling_and_working, the_call, serving_twice, collecting_early, the_call_unserved};
ghost use Rattle.switchless_laws.specs.Servings.{offering, acceptance, leaving, collecting, IsServedWord, WasLeft};
ghost use Rattle.switchless_laws.specs.Roles.{IsCallerLog, IsWorkerLog, IsParticipant, HasLeft};

/// Where the slots of a pool are free at first, and each participant plays roles of callers and workers, one after
/// another, and makes no other step on a slot: at each moment of a legal history each ordinal, frame and status was
/// served as often as it was taken, and once more for each slot that holds it as done. Once each caller's role has
/// ended, every slot is free, and what was taken is what was served.
pub fn taken_is_served_law<R>()
    ensures moments { (pool : Pool) (words : List ℕ) (participants : List (List Step)) (before after : List Step) →
        All (IsParticipant R pool) participants → IsHistory pool words participants (before ++ after) →
        IsCounted pool words before }
    ensures free { (pool : Pool) (words : List ℕ) (participants : List (List Step)) (whole : List Step) →
        All (HasLeft R pool) participants → IsHistory pool words participants whole →
        AreFree pool (words_in_the_end words (history_of whole)) }
    ensures agree { (pool : Pool) (words : List ℕ) (participants : List (List Step)) (whole : List Step) →
        All (HasLeft R pool) participants → IsHistory pool words participants whole → Agree pool participants }
{}

/// The same of participants of which is known alone that they keep to the rules of each slot, whatever else they do. At
/// each moment each slot is free, and nobody has to do with it; or a word is offered there, and one caller holds it; or
/// it is accepted, and one worker serves it too; or it is done, and the caller holds it still.
pub fn slots_law()
    ensures settled { (pool : Pool) (words : List ℕ) (participants : List (List Step)) (before after : List Step) →
        All (KeepsSlots pool) participants → IsHistory pool words participants (before ++ after) →
        (slot : ℕ) → IsSlotOf pool slot → IsSettledMoment slot words participants before after }
    ensures moments { (pool : Pool) (words : List ℕ) (participants : List (List Step)) (before after : List Step) →
        All (KeepsSlots pool) participants → IsHistory pool words participants (before ++ after) →
        IsCounted pool words before }
    ensures free { (pool : Pool) (words : List ℕ) (participants : List (List Step)) (whole : List Step) →
        All (LeavesSlots pool) participants → IsHistory pool words participants whole →
        AreFree pool (words_in_the_end words (history_of whole)) }
    ensures agree { (pool : Pool) (words : List ℕ) (participants : List (List Step)) (whole : List Step) →
        All (LeavesSlots pool) participants → IsHistory pool words participants whole → Agree pool participants }
{}

/// A caller's role ends with nothing of its own in a slot: what it offered it took back or collected. A worker that has
/// accepted a word makes no other step on its slot but to leave that word done; wherever its role is cut, no word of its
/// own is offered.
pub fn roles_law<R>()
    ensures caller { (pool : Pool) (log : List Step) (end : Option ℕ) (slot : ℕ) → IsSlotOf pool slot →
        IsCallerLog log (ret end) → KeepsSlot slot log idle }
    ensures worker { (pool : Pool) (log : List Step) (rest : Interaction (List R)) (slot : ℕ) → IsSlotOf pool slot →
        IsWorkerLog R pool log rest → (last : Phase) × HoldsNothing last × KeepsSlot slot log last }
{}

/// Two workers never serve one task: between two acceptances at a slot a caller offered the second one's word there.
pub fn one_server_law()
    ensures { (pool : Pool) (words : List ℕ) (participants : List (List Step)) (before between after : List Step) →
        (slot first second : ℕ) → All (KeepsSlots pool) participants →
        IsHistory pool words participants
        (before ++ acceptance slot first ∷ (between ++ acceptance slot second ∷ after)) →
        IsSlotOf pool slot → IsTrue (is_offered first) → IsTrue (is_offered second) →
        Contains between (offering slot second) }
{}

/// A collected status was written by a worker that served that very word: what a caller collects was left in the slot
/// before, and whoever leaves a word there that is done has just accepted it, and gives its own status with it.
pub fn collected_law()
    ensures left { (pool : Pool) (words : List ℕ) (participants : List (List Step)) (before after : List Step) →
        (slot word : ℕ) → All (KeepsSlots pool) participants →
        IsHistory pool words participants (before ++ collecting slot word ∷ after) → IsSlotOf pool slot →
        IsTrue (is_done word) × WasLeft slot word before }
    ensures served { (slot word found : ℕ) (log past rest : List Step) (last : Phase) →
        KeepsSlot slot log last → log ≡ past ++ leaving slot word found ∷ rest → IsTrue (is_done word) →
        IsServedWord slot word past }
{}

/// A word that a worker leaves tells of the call that was offered, with the status of the worker.
pub fn done_word_law()
    ensures ordinal { (word status : ℕ) → IsTrue (is_offered word)
        → ordinal_in (done_word word status) ≡ ordinal_in word }
    ensures frame { (word status : ℕ) → IsTrue (is_offered word) → frame_in (done_word word status) ≡ frame_in word }
    ensures status { (word status : ℕ) → IsTrue (is_offered word) → status_in (done_word word status) ≡ status }
{}

/// The word that a caller offers counts as offered, and tells of its function and its frame's place.
pub fn offered_word_law()
    ensures offered { (ordinal frame : ℕ) → ordinal < 2 ^ 16 → place_of_frame frame < 2 ^ 17 →
        IsTrue (is_offered (offered_word ordinal frame)) }
    ensures ordinal { (ordinal frame : ℕ) → ordinal < 2 ^ 16 → ordinal_in (offered_word ordinal frame) ≡ ordinal }
    ensures place { (ordinal frame : ℕ) → ordinal < 2 ^ 16 → place_of_frame frame < 2 ^ 17 →
        place_in (offered_word ordinal frame) ≡ place_of_frame frame }
{}

/// There are histories as the first law speaks of: a call is offered, served and taken.
pub fn example_law()
    ensures calling { HasLeft ℕ one_slot calling }
    ensures working { HasLeft ℕ one_slot working }
    ensures free { AreFree one_slot (0 ∷ 1 ∷ []) }
    ensures shuffled { IsShuffleOf (calling ∷ working ∷ []) calling_and_working }
    ensures legal { IsLegal (0 ∷ 1 ∷ []) (history_of calling_and_working) }
    ensures served { served_in one_slot calling_and_working ≡ the_call ∷ [] }
    ensures taken { taken_in one_slot calling_and_working ≡ the_call ∷ [] }
{}

/// Where a worker leaves one accepted word done twice, or a caller collects before its word is done, the counts differ:
/// more was served than was taken, or what was taken nobody served.
pub fn broken_roles_law()
    ensures twice { IsLegal (0 ∷ 1 ∷ []) (history_of serving_twice) }
    ensures served_twice { served_in one_slot serving_twice ≡ the_call ∷ the_call ∷ [] }
    ensures taken_once { taken_in one_slot serving_twice ≡ the_call ∷ [] }
    ensures none_held { held_in one_slot (words_in_the_end (0 ∷ 1 ∷ []) (history_of serving_twice)) ≡ [] }
    ensures early { IsLegal (0 ∷ 1 ∷ []) (history_of collecting_early) }
    ensures served_once { served_in one_slot collecting_early ≡ the_call ∷ [] }
    ensures taken_early { taken_in one_slot collecting_early ≡ the_call_unserved ∷ [] }
    ensures held_still { held_in one_slot (words_in_the_end (0 ∷ 1 ∷ []) (history_of collecting_early))
        ≡ the_call ∷ [] }
{}
