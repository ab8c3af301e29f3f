//! The search of a graph: which places can be reached from given ones.
ghost use Rattle.std.specs.Prelude.{◌≡◌, ◌≤◌, min, ◌∷◌, [], length, take, Decides, MatchOption, MatchResult};
ghost use Rattle.graph.specs.Reach.{Holds, Distinct, MoreThan, Found};
ghost use Rattle.graph.specs.ReachLemmas.{Distinct-prop};
ghost use Rattle.graph.specs.Ring.{entries, capacity};

use crate::places::{Graph, Same};
use crate::worklist::WorkList;
use fault::graph::GraphFault;

// A search under way: the first `count` of `found` are the places found so far, each once, and those of them wait
// whose neighbours were not looked at yet. No more than `limit` places are found.
#[derive(Drop)]
struct Search<'a, 'w, P> {
    found: &'a mut [P],
    count: usize,
    limit: usize,
    // Lent as `found` is: of a struct that holds the list itself no proof knows what it leaves in `found`.
    waiting: &'a mut WorkList<'w, P>,
    ghost fits: { limit ≤ length found.now },
    ghost within: { count ≤ limit },
    ghost waits: { length (entries waiting.now) ≤ count },
    ghost room: { limit ≤ capacity waiting.now },
    ghost distinct: { Distinct (take count found.now) } by { Distinct-prop (take count found.now) },
}

impl<'a, 'w, P: Copy + Same> Search<'a, 'w, P> {
    ghost use Rattle.graph.specs.Searches.{Grown, Overfull};

    // Whether a place was found.
    fn has(&self, place: P) -> bool
        ensures { Decides result (Holds (take self.now.count self.now.found.now) place) }
    {
        self.found[..self.count].contains(&place)
    }

    // Adds a place, unless it was found before.
    fn add(&mut self, place: P) -> Result<(), GraphFault>
        ensures cases { MatchResult result (λ _. Grown (place ∷ []) self.old self.new)
            (λ e. (e ≡ GraphFault.TooMany) × Overfull (place ∷ []) self.old) }
        ensures room { capacity self.new.waiting.now ≡ capacity self.old.waiting.now }
        ensures reference { self.new.found.ghost_name ≡ self.old.found.ghost_name }
    {
        if self.has(place) {
            return Ok(());
        }
        if self.count >= self.limit {
            return Err(GraphFault::TooMany);
        }
        self.found[self.count] = place;
        self.count += 1;
        self.waiting.put(place)
    }

    // Adds each of some places.
    fn add_all(&mut self, places: &[P]) -> Result<(), GraphFault>
        ensures cases { MatchResult result (λ _. Grown places.now self.old self.new)
            (λ e. (e ≡ GraphFault.TooMany) × Overfull places.now self.old) }
        ensures room { capacity self.new.waiting.now ≡ capacity self.old.waiting.now }
        ensures reference { self.new.found.ghost_name ≡ self.old.found.ghost_name }
    {
        for place in places {
            self.add(*place)?;
        }
        Ok(())
    }

    // Takes the oldest of the places that wait.
    fn take(&mut self) -> Option<P>
        ensures cases { MatchOption result (entries self.old.waiting.now ≡ [])
            (λ x. entries self.old.waiting.now ≡ x ∷ entries self.new.waiting.now) }
        ensures kept { (self.new.found.now ≡ self.old.found.now) × (self.new.count ≡ self.old.count) × (self.new.limit ≡ self.old.limit) }
        ensures room { capacity self.new.waiting.now ≡ capacity self.old.waiting.now }
        ensures reference { self.new.found.ghost_name ≡ self.old.found.ghost_name }
    {
        self.waiting.take().ok()
    }

    // Adds each place that is next to a place.
    fn add_neighbours<G: Graph<Place = P>>(&mut self, graph: &G, place: P) -> Result<(), GraphFault>
        ensures cases { MatchResult result (λ _. Grown (G.next graph.now place) self.old self.new)
            (λ e. (e ≡ GraphFault.TooMany) × Overfull (G.next graph.now place) self.old) }
        ensures room { capacity self.new.waiting.now ≡ capacity self.old.waiting.now }
        ensures reference { self.new.found.ghost_name ≡ self.old.found.ghost_name }
    {
        // By an index, as a graph hands its places out: an iterator would be an associated type with a lifetime parameter.
        for index in 0..graph.degree(place) {
            let Some(other) = graph.neighbour(place, index) else {
                unreachable()
            };
            self.add(other)?;
        }
        Ok(())
    }
}

// Searches from the given places, over an empty list for those that wait. A function of its own, since in generic code
// the check has no rule for a struct of references that borrows a list of the same function.
fn explore<G: Graph>(
    graph: &G,
    from: &[G::Place],
    limit: usize,
    found: &mut [G::Place],
    waiting: &mut WorkList<'_, G::Place>,
) -> Result<usize, GraphFault>
    requires fits { limit ≤ length found.old }
    requires room { limit ≤ capacity waiting.old }
    requires empty { entries waiting.old ≡ [] }
    ensures { MatchResult result (Found (G.next graph.now) from.now limit found.old found.new)
        (λ e. (e ≡ GraphFault.TooMany) × MoreThan (G.next graph.now) from.now limit) }
{
    let mut search = Search {
        found,
        count: 0,
        limit,
        waiting,
    };
    search.add_all(from)?;
    // the list grows while it is emptied, so no iterator goes over it
    while let Some(place) = search.take() {
        search.add_neighbours(graph, place)?;
    }
    Ok(search.count)
}

/// Writes every place that can be reached from the given places, these included, each once, into the front of `found`,
/// and tells their number. The places of `found` behind them are untouched. `work` is memory for the search, and free afterwards.
///
/// The shorter length of the two is the limit. Refused exactly when more places can be reached than that,
/// and then `found` may hold anything.
pub fn reach<G: Graph>(
    graph: &G,
    from: &[G::Place],
    found: &mut [G::Place],
    work: &mut [G::Place],
) -> Result<usize, GraphFault>
    ensures { MatchResult result
        (Found (G.next graph.now) from.now (min (length found.old) (length work.old)) found.old found.new)
        (λ e. (e ≡ GraphFault.TooMany) × MoreThan (G.next graph.now) from.now (min (length found.old) (length work.old))) }
{
    let limit = found.len().min(work.len());
    explore(graph, from, limit, found, &mut WorkList::new(work))
}
