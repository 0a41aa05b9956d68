//! A law of files and machines: what files hold gives one machine.
#![tactic(auto)]

ghost use Rattle.std.specs.Prelude.{ℕ, ◌≡◌, Bool, List, Ok};
ghost use Rattle.sgx_base.specs.Stores.{Store};
ghost use Rattle.call_machine.specs.declared.Machine.{Machine};
ghost use Rattle.call_engine.specs.Prepared.{Prepares};

/// A store gives at most one machine for a search path and the names of an EDL file and a script.
pub fn one_machine_law()
    ensures { (racing : Bool) (store : Store) (paths : List (List ℕ)) (edl script : List ℕ) (m other : Machine)
        → Prepares racing store paths edl script (Ok m) → Prepares racing store paths edl script (Ok other)
        → m ≡ other }
{}
