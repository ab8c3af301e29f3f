//! A graph whose places are structs.
ghost use Rattle.std.specs.Prelude.{◌+◌, ltb, [], ◌∷◌, if◌then◌else◌};
ghost use Rattle.std.proofs.Common.{rules};

use graph::places::{Graph, Same};

/// A ladder, on which one climbs from rung to rung.
#[derive(Clone, Copy)]
pub struct Ladder {
    pub top: u16,
}

#[derive(Clone, Copy, PartialEq, Eq, Debug)]
pub struct Rung {
    pub height: u16,
}

// No derive gives the law.
impl Same for Rung {
    ghost lawful = { Prim.search rules };
}

impl Graph for Ladder {
    type Place = Rung;

    ghost next = { λ l r. (if ltb r.height l.top then (record { height = r.height + 1 } ∷ []) else []) };

    fn degree(&self, place: Rung) -> usize {
        usize::from(place.height < self.top)
    }

    fn neighbour(&self, place: Rung, index: usize) -> Option<Rung> {
        (place.height < self.top && index == 0).then(|| Rung {
            height: place.height + 1,
        })
    }
}

#[cfg(test)]
mod tests {
    use super::*;
    use graph::search::reach;
    use std::test::Fail;

    #[test]
    fn climbs_to_the_top(rt: HostRuntime) -> Result<(), Fail> {
        let ladder = Ladder { top: 9 };
        let mut found = [Rung { height: 0 }; 4];
        let mut work = [Rung { height: 0 }; 4];
        let number = reach(&ladder, &[Rung { height: 7 }], &mut found, &mut work)?;
        assert_eq!(rt; number, 3);
        assert_eq!(rt; found[2], Rung { height: 9 });
        Ok(())
    }
}
