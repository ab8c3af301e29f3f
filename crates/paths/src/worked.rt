//! Worked cases of the path rule.
ghost use Rattle.paths.specs.Worked.{WorkedCases};

/// What the path rule says of the worked cases, proved from the rule itself.
pub fn worked_cases_hold()
    ensures { WorkedCases }
{}
