//! Laws of reports, as contracts.

ghost use Rattle.std.specs.Prelude.{ℕ, ◌≡◌, List};
ghost use Rattle.call_machine.specs.declared.Machine.{Machine};
ghost use Rattle.call_machine.specs.Reported.{IsReportOf};

/// A machine has at most one report.
pub fn one_report_law()
    ensures { (m : Machine) (text other : List ℕ) → IsReportOf m text → IsReportOf m other → text ≡ other }
{}
