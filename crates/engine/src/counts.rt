//! The two states of a count. A figure can be set only before the count is begun, and only a begun count takes steps.
use choice::conditions::MOST_FIGURES;
use marking::marking::Marking;
use paths::routing::Routing;

/// A count that is set up, whose figures may still be set.
#[derive(Drop)]
pub struct SetUp<'a> {
    pub(crate) routing: &'a Routing,
    pub(crate) instance: u16,
    pub(crate) figures: [i32; MOST_FIGURES],
}

/// A count that has begun, and takes steps, runs and questions.
#[derive(Drop)]
pub struct Begun<'a> {
    pub(crate) marking: Marking<'a>,
    pub(crate) instance: u16,
    pub(crate) figures: [i32; MOST_FIGURES],
    // How many lines were written: the journal's next place. The journal is lent with each call, and so is the
    // service: so a list of calls in both states can say what they hold at its end.
    pub(crate) written: u16,
}
