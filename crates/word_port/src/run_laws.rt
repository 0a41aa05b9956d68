//! Laws of behaviours, as contracts.

ghost use Rattle.std.specs.Prelude.{ℕ, ◌≡◌, List};
ghost use Rattle.word_port.specs.declared.Race.{Race};
ghost use Rattle.word_port.specs.Events.{Event, steps_of, HasPlaces};
ghost use Rattle.word_port.specs.Interaction.{Interaction, IsRun};
ghost use Rattle.word_port.specs.History.{IsLegal, with_races};

/// A behaviour has at most one run that is legal on given words with given races: one value and one list of events.
pub fn one_run_law<A>()
    ensures { (t : Interaction A) (host : ℕ) (races : List Race) (words : List ℕ) (xs ys : List Event) (x y : A)
        → IsRun t xs x → IsRun t ys y → HasPlaces 0 xs → HasPlaces 0 ys
        → IsLegal words (with_races host races (steps_of xs)) → IsLegal words (with_races host races (steps_of ys))
        → (x ≡ y) × (xs ≡ ys) }
{}
