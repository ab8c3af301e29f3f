//! Order texts: accepted ones, and each fault with its place.

#[cfg(test)]
mod tests {
    use service::answer::Answer;
    use service::order_file::OrderFile;
    use service::service::Service;
    use std::test::Fail;

    // The number, layer and place of the fault of an order text.
    fn verdict(text: &[u8]) -> Option<(u8, u8, usize)> {
        let record = OrderFile::over(text).fault()?.record();
        Some((record.number, record.layer, record.place))
    }

    #[test]
    fn line_order(rt: HostRuntime) -> Result<(), Fail> {
        let mut order = OrderFile::over(b"answer 2 2\nanswer 40 -1000000000\nanswer 2 310\n");
        assert!(rt; order.fault().is_none());
        assert_eq!(rt;
            (order.waiting(1), order.waiting(2), order.waiting(40)),
            (0, 2, 1)
        );
        assert_eq!(rt; order.take(2)?, Answer { value: 2 });
        assert_eq!(rt; order.take(2)?, Answer { value: 310 });
        assert!(rt; order.take(2).is_err());
        assert_eq!(rt;
            order.take(40)?,
            Answer {
                value: -1_000_000_000,
            }
        );
        Ok(())
    }

    #[test]
    fn refused_texts_have_no_answers(rt: HostRuntime) {
        let mut order = OrderFile::over(b"answer 2 2\nanswer 41 1\n");
        assert_eq!(rt; (order.waiting(2), order.waiting(41)), (0, 0));
        assert!(rt; order.take(2).is_err());
    }

    #[test]
    fn faults_of_the_text(rt: HostRuntime) {
        assert_eq!(rt; verdict(b""), Some((11, 1, 0)));
        assert_eq!(rt; verdict(b"answer 1 1\nAnswer 1 1\n"), Some((12, 1, 11)));
        assert_eq!(rt; verdict(b"answer 1 1"), Some((13, 1, 10)));
    }

    #[test]
    fn form(rt: HostRuntime) {
        assert_eq!(rt; verdict(b"\n"), Some((21, 2, 1)));
        assert_eq!(rt; verdict(b"answer 1 1\nanswer 1\n"), Some((21, 2, 2)));
        assert_eq!(rt; verdict(b"answer 1 1 1\n"), Some((21, 2, 1)));
        assert_eq!(rt; verdict(b"answer 1  1\n"), Some((21, 2, 1)));
        assert_eq!(rt; verdict(b"answer 1 1 \n"), Some((21, 2, 1)));
        assert_eq!(rt; verdict(b"answer 1 v1\n"), Some((21, 2, 1)));
        assert_eq!(rt; verdict(b"process 1\n"), Some((21, 2, 1)));
        assert_eq!(rt; verdict(b"answer 007 start\n"), Some((21, 2, 1)));
    }

    #[test]
    fn numbers(rt: HostRuntime) {
        assert_eq!(rt; verdict(b"answer 1 1\nanswer 0 1\n"), Some((22, 2, 2)));
        assert_eq!(rt; verdict(b"answer 41 1\n"), Some((22, 2, 1)));
        assert_eq!(rt; verdict(b"answer -1 1\n"), Some((22, 2, 1)));
        assert_eq!(rt; verdict(b"answer 01 1\n"), Some((22, 2, 1)));
        assert_eq!(rt; verdict(b"answer 1 -0\n"), Some((22, 2, 1)));
        assert_eq!(rt; verdict(b"answer 1 1000000001\n"), Some((22, 2, 1)));
        assert_eq!(rt; verdict(b"answer 1 -1000000001\n"), Some((22, 2, 1)));
    }

    #[test]
    fn the_most_lines(rt: HostRuntime) -> Result<(), Fail> {
        let heap = rt.alloc();
        let mut text = Vec::new(heap);
        for _ in 0..1_489 {
            text.extend_from_slice(b"answer 7 0\n")?;
        }
        assert_eq!(rt; OrderFile::over(text.as_slice()).waiting(7), 1_489);
        text.extend_from_slice(b"answer 7 0\n")?;
        assert_eq!(rt; verdict(text.as_slice()), Some((11, 1, 0)));
        Ok(())
    }
}
