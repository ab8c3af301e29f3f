//! A graph of numbered places, given by its edges.
ghost use Rattle.graph_tests.specs.Targets.{targets};

use graph::places::Graph;

/// Where each edge starts, and where it leads.
#[derive(Clone, Copy)]
pub struct Edges<'a> {
    pub edges: &'a [(u8, u8)],
}

impl<'a> Graph for Edges<'a> {
    type Place = u8;

    ghost next = { λ g p. targets g.edges.now p };

    fn degree(&self, place: u8) -> usize {
        self.edges.iter().filter(|edge| edge.0 == place).count()
    }

    fn neighbour(&self, place: u8, index: usize) -> Option<u8> {
        self.edges
            .iter()
            .filter(|edge| edge.0 == place)
            .nth(index)
            .map(|edge| edge.1)
    }
}

#[cfg(test)]
mod tests {
    use super::*;
    use fault::graph::GraphFault;
    use graph::search::reach;
    use std::test::Fail;

    const EDGES: [(u8, u8); 5] = [(1, 2), (2, 3), (4, 5), (3, 1), (2, 7)];

    #[test]
    fn a_cycle_and_a_branch(rt: HostRuntime) -> Result<(), Fail> {
        let mut found = [0; 6];
        let mut work = [9; 4];
        let number = reach(&Edges { edges: &EDGES }, &[1, 1], &mut found, &mut work)?;
        assert_eq!(rt; number, 4);
        assert_eq!(rt; found, [1, 2, 3, 7, 0, 0]);
        Ok(())
    }

    #[test]
    fn too_little_memory(rt: HostRuntime) {
        let graph = Edges { edges: &EDGES };
        let mut three = [0; 3];
        let mut six = [0; 6];
        assert!(rt; reach(&graph, &[1], &mut three, &mut six) == Err(GraphFault::TooMany));
        assert!(rt; reach(&graph, &[1], &mut six, &mut three) == Err(GraphFault::TooMany));
    }

    #[test]
    fn nowhere_to_start(rt: HostRuntime) -> Result<(), Fail> {
        let mut found = [8; 2];
        let mut work = [9; 0];
        let number = reach(&Edges { edges: &EDGES }, &[], &mut found, &mut work)?;
        assert_eq!(rt; number, 0);
        assert_eq!(rt; found, [8, 8]);
        Ok(())
    }
}
