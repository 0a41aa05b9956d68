//! Laws of scripts, as contracts: what the layers above may rest on in a script that was taken.
#![tactic(auto)]

ghost use Rattle.std.specs.Prelude.{ℕ, ◌≡◌, Bool, List, Ok};
ghost use Rattle.edl_interface.specs.declared.Interface.{Interface};
ghost use Rattle.call_script.specs.declared.Script.{Script};
ghost use Rattle.call_script.specs.Reading.{script_of};
ghost use Rattle.call_script.specs.Sound.{IsSoundScript};

/// A script without faults is sound: its settings and words are in range, its stacks fit, its races are in order, and
/// each action and act names what there is and stays within the limits.
pub fn sound_law()
    ensures { (i : Interface) (racing : Bool) (bytes : List ℕ) (s : Script)
        → script_of i racing bytes ≡ Ok s → IsSoundScript i racing s }
{}
