//! Trays: put and take, and what is refused.

#[cfg(test)]
mod tests {
    use fault::service::ServiceFault;
    use service::answer::Answer;
    use service::service::Service;
    use service::tray::Tray;
    use std::test::Fail;

    const HIGHEST: i32 = 1_000_000_000;

    #[test]
    fn oldest_first_for_each_node(rt: HostRuntime) -> Result<(), Fail> {
        let mut tray = Tray::new();
        tray.put(2, 10)?;
        tray.put(4, 20)?;
        tray.put(2, 30)?;
        assert_eq!(rt;
            (tray.waiting(2), tray.waiting(3), tray.waiting(4)),
            (2, 0, 1)
        );
        assert_eq!(rt; tray.take(2)?, Answer { value: 10 });
        tray.put(4, 40)?;
        assert_eq!(rt; tray.take(4)?, Answer { value: 20 });
        assert_eq!(rt; tray.take(2)?, Answer { value: 30 });
        assert!(rt; tray.take(2) == Err(ServiceFault::NoAnswer { node: 2 }));
        assert_eq!(rt; (tray.waiting(2), tray.waiting(4)), (0, 1));
        assert_eq!(rt; tray.take(4)?, Answer { value: 40 });
        Ok(())
    }

    // A tray that is full, with one answer or two for each node.
    fn full() -> Result<Tray, Fail> {
        let mut tray = Tray::new();
        for i in 0..64 {
            tray.put(i % 40 + 1, i32::from(i))?;
        }
        Ok(tray)
    }

    #[test]
    fn the_65th_answer(rt: HostRuntime) -> Result<(), Fail> {
        let mut tray = full()?;
        assert!(rt; tray.put(5, 0) == Err(ServiceFault::Full { node: 5 }));
        assert_eq!(rt; (tray.waiting(5), tray.waiting(40)), (2, 1));
        assert_eq!(rt; tray.take(40)?, Answer { value: 39 });
        tray.put(5, 99)?;
        assert!(rt; tray.put(5, 0) == Err(ServiceFault::Full { node: 5 }));
        assert_eq!(rt; tray.take(5)?, Answer { value: 4 });
        assert_eq!(rt; tray.take(5)?, Answer { value: 44 });
        assert_eq!(rt; tray.take(5)?, Answer { value: 99 });
        Ok(())
    }

    #[test]
    fn numbers_of_nodes(rt: HostRuntime) -> Result<(), Fail> {
        let mut tray = full()?;
        for node in [0, 41, 65_535] {
            assert!(rt; tray.put(node, HIGHEST + 1) == Err(ServiceFault::NodeNumber { node }));
            assert!(rt; tray.take(node) == Err(ServiceFault::NoAnswer { node }));
            assert_eq!(rt; tray.waiting(node), 0);
        }
        Ok(())
    }

    #[test]
    fn values(rt: HostRuntime) -> Result<(), Fail> {
        let mut tray = Tray::new();
        for value in [-HIGHEST, HIGHEST] {
            tray.put(1, value)?;
            tray.put(40, value)?;
        }
        for value in [i32::MIN, -HIGHEST - 1, HIGHEST + 1, i32::MAX] {
            assert!(rt; tray.put(1, value) == Err(ServiceFault::Value));
        }
        assert_eq!(rt; (tray.waiting(1), tray.waiting(40)), (2, 2));
        assert!(rt; full()?.put(1, HIGHEST + 1) == Err(ServiceFault::Value));
        Ok(())
    }
}
