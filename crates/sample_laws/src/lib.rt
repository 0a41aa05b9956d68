//! The law of samples, as a contract.
#![tactic(auto)]

ghost use Rattle.std.specs.Prelude.{ℕ, ◌≡◌, ◌≤◌, false, Ok};
ghost use Rattle.call_script.specs.Block.{placed_lines};
ghost use Rattle.call_script.specs.Meaning.{script_value};
ghost use Rattle.call_script.specs.Reading.{script_of};
ghost use Rattle.sample_script.specs.Sample.{sample};
ghost use Rattle.sample_laws.specs.Sampled.{sample_interface};

/// The text of a sample is a script without faults for its interface.
pub fn sample_law()
    ensures { (calls : ℕ) → calls ≤ 8000 → script_of sample_interface false (sample calls)
        ≡ Ok (script_value sample_interface false (placed_lines (sample calls))) }
{}
