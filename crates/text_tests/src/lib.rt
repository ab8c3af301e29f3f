//! Examples of what the crate `text` reads and what it refuses.
#![tactic(auto)]

#[cfg(test)]
mod tests {
    use fault::text::TextFault;
    use process::flow::Operator;
    use std::test::Fail;
    use text::check::check_text;
    use text::kinds::{keyword, operator};
    use text::numbers::{is_figure, is_number, number};
    use text::words::{Keyword, Rest};

    #[test]
    fn numbers_in_range(rt: HostRuntime) {
        assert_eq!(rt; number(b"0", 0, 1_000_000_000), Some(0));
        assert_eq!(rt; number(b"-25", -50, 50), Some(-25));
        assert_eq!(rt;
            number(b"1000000000", 0, 1_000_000_000),
            Some(1_000_000_000)
        );
        assert_eq!(rt; number(b"1000000001", 0, 1_000_000_000), None);
    }

    #[test]
    fn numbers_have_one_writing(rt: HostRuntime) {
        assert_eq!(rt; number(b"-0", -9, 9), None);
        assert_eq!(rt; number(b"007", 0, 9), None);
        assert_eq!(rt; number(b"+7", 0, 9), None);
        assert_eq!(rt; number(b"", 0, 9), None);
        assert_eq!(rt; number(b"-", -9, 9), None);
    }

    #[test]
    fn long_numbers_are_refused(rt: HostRuntime) {
        let digits = [b'9'; 10_000];
        assert!(rt; is_number(&digits));
        assert_eq!(rt; number(&digits, i32::MIN, i32::MAX), None);
    }

    #[test]
    fn figures(rt: HostRuntime) {
        assert!(rt; is_figure(b"v0"));
        assert!(rt; is_figure(b"v007"));
        assert!(rt; !is_figure(b"v"));
        assert!(rt; !is_figure(b"v-1"));
        assert!(rt; !is_number(b"v0"));
    }

    #[test]
    fn operators(rt: HostRuntime) {
        assert_eq!(rt; operator(b"<"), Some(Operator::Less));
        assert_eq!(rt; operator(b"<="), Some(Operator::AtMost));
        assert_eq!(rt; operator(b"="), Some(Operator::Equal));
        assert_eq!(rt; operator(b"<>"), Some(Operator::NotEqual));
        assert_eq!(rt; operator(b">="), Some(Operator::AtLeast));
        assert_eq!(rt; operator(b">"), Some(Operator::Greater));
        assert_eq!(rt; operator(b"=="), None);
    }

    #[test]
    fn keywords(rt: HostRuntime) {
        assert_eq!(rt; keyword(b"default"), Some(Keyword::Default));
        assert_eq!(rt; keyword(b"defaults"), None);
    }

    #[test]
    fn words_of_a_line(rt: HostRuntime) -> Result<(), Fail> {
        let (_, rest) = Rest::new(b"flow v2", 1).next().ok_or("no keyword")?;
        assert!(rt; !rest.is_done());
        let (_, rest) = rest.next().ok_or("no figure")?;
        assert!(rt; rest.is_done());
        assert!(rt; rest.next().is_none());
        Ok(())
    }

    #[test]
    fn lines_with_no_next_word(rt: HostRuntime) -> Result<(), Fail> {
        assert!(rt; Rest::new(b"", 1).next().is_none());
        assert!(rt; Rest::new(b"loop 1", 1).next().is_none());
        let (_, rest) = Rest::new(b"node  1", 1).next().ok_or("no keyword")?;
        assert!(rt; rest.next().is_none());
        assert!(rt; !rest.is_done());
        Ok(())
    }

    #[test]
    fn lengths_of_a_text(rt: HostRuntime) {
        assert_eq!(rt; check_text(b""), Err(TextFault::Size));
        assert_eq!(rt; check_text(&[b'\n'; 16_384]), Ok(()));
        assert_eq!(rt; check_text(&[b'\n'; 16_385]), Err(TextFault::Size));
    }

    #[test]
    fn bytes_of_a_text(rt: HostRuntime) {
        assert_eq!(rt; check_text(b"node 1\n"), Ok(()));
        assert_eq!(rt; check_text(b"a\tb"), Err(TextFault::Byte { offset: 1 }));
        assert_eq!(rt; check_text(b"end"), Err(TextFault::Ending { length: 3 }));
    }
}
