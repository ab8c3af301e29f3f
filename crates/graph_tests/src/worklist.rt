//! Work lists of numbers and of pairs.

#[cfg(test)]
mod tests {
    use fault::graph::GraphFault;
    use graph::worklist::WorkList;
    use std::test::Fail;

    #[test]
    fn goes_round_its_memory(rt: HostRuntime) -> Result<(), Fail> {
        let mut memory = [0u8; 2];
        let mut list = WorkList::new(&mut memory);
        list.put(1)?;
        list.put(2)?;
        assert!(rt; list.put(3) == Err(GraphFault::Full));
        assert_eq!(rt; list.take()?, 1);
        list.put(4)?;
        assert_eq!(rt; list.waiting(), 2);
        assert_eq!(rt; list.take()?, 2);
        assert_eq!(rt; list.take()?, 4);
        assert!(rt; list.take() == Err(GraphFault::Empty));
        Ok(())
    }

    #[test]
    fn holds_pairs(rt: HostRuntime) -> Result<(), Fail> {
        let mut memory = [(0u8, 0u16); 1];
        let mut list = WorkList::new(&mut memory);
        list.put((1, 300))?;
        assert_eq!(rt; list.take()?, (1, 300));
        list.put((2, 400))?;
        assert_eq!(rt; list.take()?, (2, 400));
        Ok(())
    }

    #[test]
    fn memory_without_places(rt: HostRuntime) {
        let mut memory = [0u8; 0];
        let mut list = WorkList::new(&mut memory);
        assert!(rt; list.take() == Err(GraphFault::Empty));
        assert!(rt; list.put(1) == Err(GraphFault::Full));
    }
}
