//! Every call has one answer.
ghost use Rattle.engine.specs.Verdicts.{OneVerdict};

/// No two reasons to refuse a step, to stop a run or to tell no reason apply at once.
pub fn one_verdict_holds()
    ensures { OneVerdict }
{}
