//! Laws of the answers of a call.

ghost use Rattle.callrun.specs.OneAnswer.{OneTextIsTold, NoneIsDoneAndCut, OneLimitCuts};

/// What files hold decides how the run of their script ends: one text is told of it, or one limit cuts it.
pub fn one_answer_law()
    ensures text { OneTextIsTold }
    ensures either { NoneIsDoneAndCut }
    ensures limit { OneLimitCuts }
{}
