//! Worked cases of inclusive gateways, proved from the rules.
#![tactic(auto)]

ghost use Rattle.worked.specs.Worked.{WorkedCases};

/// What the rules say of the worked cases: of every begun count of process 7 or process 8 with these tokens.
pub fn worked_cases_hold()
    ensures { WorkedCases }
{}
