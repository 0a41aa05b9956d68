//! The machine of a sample, as a contract.
#![tactic(auto)]

ghost use Rattle.std.specs.Prelude.{ℕ, ◌≤◌, [], false, Err};
ghost use Rattle.call_engine.specs.declared.faults.PrepareFault.{PrepareFault};
ghost use Rattle.call_engine.specs.Prepared.{Prepares};
ghost use Rattle.sample_script.specs.Sample.{sample};
ghost use Rattle.sample_machine.specs.Texts.{edl_name, script_name, texts};

/// The texts of a sample have no fault: they give a machine.
pub fn sample_machine_law()
    ensures { (calls : ℕ) (fault : PrepareFault) → calls ≤ 8000
        → ¬ Prepares false (texts (sample calls)) [] edl_name script_name (Err fault) }
{}
