//! Examples of model texts: accepted ones, and each fault with its place.
#![tactic(auto)]

#[cfg(test)]
mod tests {
    use model::model::Model;
    use process::node::Kind;
    use reading::model_text::read_model;
    use std::alloc::{AllocError, Global};
    use std::test::Fail;

    // A text, and the number, layer and place of the fault with which it is refused.
    #[derive(Clone, Copy)]
    struct Case<'a> {
        text: &'a [u8],
        fault: Option<(u8, u8, usize)>,
    }

    // The number, layer and place of the fault of a text.
    fn verdict(text: &[u8]) -> Option<(u8, u8, usize)> {
        let mut place = Model::new();
        let record = read_model(&mut place, text).err()?.record();
        Some((record.number, record.layer, record.place))
    }

    // The first case whose text has another verdict.
    fn first_wrong(cases: &[Case<'_>]) -> Option<usize> {
        cases
            .iter()
            .position(|case| verdict(case.text) != case.fault)
    }

    #[test]
    fn accepted(rt: HostRuntime) {
        assert_eq!(rt;
            first_wrong(&[
                Case {
                    text: b"process 7\nnode 1 start\nnode 2 task v1\nnode 3 or\nnode 4 task v2\nnode 5 task v3\nnode 6 or\nnode 7 end\nflow 1 1 2\nflow 2 2 3\nflow 3 3 4 if v1 >= 1\nflow 4 3 5 if v1 >= 2\nflow 5 3 6 default\nflow 6 4 6\nflow 7 5 6\nflow 8 6 7\n",
                    fault: None,
                },
                Case {
                    text: b"process 8\nnode 1 start\nnode 2 or\nnode 3 xor\nnode 4 end\nflow 1 1 2\nflow 2 2 3\nflow 3 3 4 default\nflow 4 3 2 if v1 > 0\n",
                    fault: None,
                },
                Case {
                    text: b"process 1\nnode 1 start\nnode 2 end\nflow 1 1 2\n",
                    fault: None,
                },
                Case {
                    text: b"process 65535\nnode 1 start\nnode 2 or\nnode 3 task v16\nnode 4 task v2\nnode 5 end\nnode 6 end\nflow 1 1 2\nflow 2 2 3 if v16 <> -1000000000\nflow 3 2 4 if v1 = 1000000000\nflow 4 3 5\nflow 5 4 6\n",
                    fault: None,
                },
            ]),
            None
        );
    }

    #[test]
    fn faults_of_the_text(rt: HostRuntime) {
        assert_eq!(rt;
            first_wrong(&[
                Case {
                    text: b"",
                    fault: Some((11, 1, 0)),
                },
                Case {
                    text: b"process 7\nnode 1 Start\n",
                    fault: Some((12, 1, 17)),
                },
                Case {
                    text: b"process 7\r\n",
                    fault: Some((12, 1, 9)),
                },
                Case {
                    text: b"process 7",
                    fault: Some((13, 1, 9)),
                },
            ]),
            None
        );
    }

    // A line of no form, or of a form that is not allowed there. The form of the whole line comes before its numbers.
    #[test]
    fn form(rt: HostRuntime) {
        assert_eq!(rt;
            first_wrong(&[
                Case {
                    text: b"\n",
                    fault: Some((21, 2, 1)),
                },
                Case {
                    text: b"node 1 start\n",
                    fault: Some((21, 2, 1)),
                },
                Case {
                    text: b"process 1\nprocess 2\n",
                    fault: Some((21, 2, 2)),
                },
                Case {
                    text: b"process  1\n",
                    fault: Some((21, 2, 1)),
                },
                Case {
                    text: b"process 1 \n",
                    fault: Some((21, 2, 1)),
                },
                Case {
                    text: b" process 1\n",
                    fault: Some((21, 2, 1)),
                },
                Case {
                    text: b"process 1\nnode 1 start\n\nnode 2 end\n",
                    fault: Some((21, 2, 3)),
                },
                Case {
                    text: b"process 1\nnode 1 start\nnode 2 end\nflow 1 1 2\nnode 3 end\n",
                    fault: Some((21, 2, 5)),
                },
                Case {
                    text: b"process 1\nnode 1 task\n",
                    fault: Some((21, 2, 2)),
                },
                Case {
                    text: b"process 1\nnode 1 start v1\n",
                    fault: Some((21, 2, 2)),
                },
                Case {
                    text: b"process 1\nnode 007 starts\n",
                    fault: Some((21, 2, 2)),
                },
                Case {
                    text: b"process 1\nnode 1 start\nnode 2 end\nflow 1 1 2 if v1 >=\n",
                    fault: Some((21, 2, 4)),
                },
                Case {
                    text: b"process 1\nnode 1 start\nnode 2 end\nflow 1 1 2 if 1 >= 2\n",
                    fault: Some((21, 2, 4)),
                },
                Case {
                    text: b"process 1\nnode 1 start\nnode 2 end\nflow 1 1 2 if v1 == 2\n",
                    fault: Some((21, 2, 4)),
                },
                Case {
                    text: b"process v1\n",
                    fault: Some((21, 2, 1)),
                },
            ]),
            None
        );
    }

    // A number that is badly written or out of its range.
    #[test]
    fn numbers(rt: HostRuntime) {
        assert_eq!(rt;
            first_wrong(&[
                Case {
                    text: b"process 007\n",
                    fault: Some((22, 2, 1)),
                },
                Case {
                    text: b"process -0\n",
                    fault: Some((22, 2, 1)),
                },
                Case {
                    text: b"process 0\n",
                    fault: Some((22, 2, 1)),
                },
                Case {
                    text: b"process 65536\n",
                    fault: Some((22, 2, 1)),
                },
                Case {
                    text: b"process -1\n",
                    fault: Some((22, 2, 1)),
                },
                Case {
                    text: b"process 1\nnode 1 task v0\n",
                    fault: Some((22, 2, 2)),
                },
                Case {
                    text: b"process 1\nnode 1 task v17\n",
                    fault: Some((22, 2, 2)),
                },
                Case {
                    text: b"process 1\nnode 1 task v01\n",
                    fault: Some((22, 2, 2)),
                },
                Case {
                    text: b"process 1\nnode 1 start\nnode 2 end\nflow 1 1 2 if v1 > 1000000001\n",
                    fault: Some((22, 2, 4)),
                },
                Case {
                    text: b"process 1\nnode 1 start\nnode 2 end\nflow 1 1 2 if v1 > -1000000001\n",
                    fault: Some((22, 2, 4)),
                },
                Case {
                    text: b"process 1\nnode 1 start\nnode 2 end\nflow 0 1 2\n",
                    fault: Some((22, 2, 4)),
                },
                Case {
                    text: b"process 1\nnode 1 start\nnode 2 end\nflow 1 1 70000\n",
                    fault: Some((22, 2, 4)),
                },
                Case {
                    text: b"process 1\nnode 1 start\nnode 2 end\nflow 9 1 70000\n",
                    fault: Some((22, 2, 4)),
                },
            ]),
            None
        );
    }

    #[test]
    fn sequence_and_nodes(rt: HostRuntime) {
        assert_eq!(rt;
            first_wrong(&[
                Case {
                    text: b"process 1\nnode 2 start\n",
                    fault: Some((23, 2, 2)),
                },
                Case {
                    text: b"process 1\nnode 1 start\nnode 2 end\nflow 2 1 2\n",
                    fault: Some((23, 2, 4)),
                },
                Case {
                    text: b"process 1\nnode 1 start\nnode 2 end\nflow 2 1 9\n",
                    fault: Some((23, 2, 4)),
                },
                Case {
                    text: b"process 1\nnode 1 start\nflow 1 1 2\n",
                    fault: Some((25, 2, 3)),
                },
                Case {
                    text: b"process 1\nnode 1 start\nnode 2 end\nflow 1 3 2\n",
                    fault: Some((25, 2, 4)),
                },
                Case {
                    text: b"process 1\nflow 1 1 2\n",
                    fault: Some((25, 2, 2)),
                },
            ]),
            None
        );
    }

    #[test]
    fn starts_ends_and_counts(rt: HostRuntime) {
        assert_eq!(rt;
            first_wrong(&[
                Case {
                    text: b"process 1\n",
                    fault: Some((31, 3, 0)),
                },
                Case {
                    text: b"process 1\nnode 1 start\n",
                    fault: Some((31, 3, 0)),
                },
                Case {
                    text: b"process 1\nnode 1 start\nnode 2 start\nnode 3 end\nflow 1 1 1\n",
                    fault: Some((31, 3, 0)),
                },
                Case {
                    text: b"process 1\nnode 1 start\nnode 2 end\n",
                    fault: Some((32, 3, 1)),
                },
                Case {
                    text: b"process 1\nnode 1 start\nnode 2 end\nflow 1 1 2\nflow 2 1 2\n",
                    fault: Some((32, 3, 1)),
                },
                Case {
                    text: b"process 1\nnode 1 start\nnode 2 task v1\nnode 3 end\nflow 1 1 2\nflow 2 2 3\nflow 3 2 3\n",
                    fault: Some((32, 3, 2)),
                },
                Case {
                    text: b"process 1\nnode 1 start\nnode 2 end\nnode 3 and\nflow 1 1 2\nflow 2 3 3\n",
                    fault: Some((33, 3, 2)),
                },
            ]),
            None
        );
    }

    #[test]
    fn loops_conditions_and_defaults(rt: HostRuntime) {
        assert_eq!(rt;
            first_wrong(&[
                Case {
                    text: b"process 1\nnode 1 start\nnode 2 xor\nnode 3 end\nflow 1 1 2\nflow 2 2 2 if v1 > 0\nflow 3 2 3 default\n",
                    fault: Some((33, 3, 2)),
                },
                Case {
                    text: b"process 1\nnode 1 start\nnode 2 xor\nnode 3 end\nnode 4 end\nflow 1 1 2\nflow 2 2 3\nflow 3 2 4 default\n",
                    fault: Some((34, 3, 2)),
                },
                Case {
                    text: b"process 1\nnode 1 start\nnode 2 xor\nnode 3 end\nnode 4 end\nflow 1 1 2\nflow 2 2 3 if v1 < 1\nflow 3 2 4\n",
                    fault: Some((34, 3, 3)),
                },
                Case {
                    text: b"process 1\nnode 1 start\nnode 2 end\nflow 1 1 2 default\n",
                    fault: Some((34, 3, 1)),
                },
                Case {
                    text: b"process 1\nnode 1 start\nnode 2 end\nflow 1 1 2 if v1 > 0\n",
                    fault: Some((34, 3, 1)),
                },
                Case {
                    text: b"process 1\nnode 1 start\nnode 2 and\nnode 3 end\nnode 4 end\nflow 1 1 2\nflow 2 2 3 if v1 < 1\nflow 3 2 4\n",
                    fault: Some((34, 3, 2)),
                },
                Case {
                    text: b"process 1\nnode 1 start\nnode 2 xor\nnode 3 end\nnode 4 end\nflow 1 1 2\nflow 2 2 3 default\nflow 3 2 4 default\n",
                    fault: Some((35, 3, 3)),
                },
                Case {
                    text: b"process 1\nnode 1 start\nnode 2 end\nnode 3 xor\nnode 4 xor\nflow 1 1 2\nflow 2 3 4\nflow 3 4 3\n",
                    fault: Some((36, 3, 3)),
                },
            ]),
            None
        );
    }

    // A sound process: a start, a row of parallel gateways and an end, with flows past the next gateway.
    fn row_of_gateways(heap: Global, nodes: u8, flows: u8) -> Result<String, AllocError> {
        let mut text = String::from_str(heap, "process 9\nnode 1 start\n")?;
        for n in 2..nodes {
            text.push_str(format!(in heap; "node {n} and\n")?.as_str())?;
        }
        text.push_str(format!(in heap; "node {nodes} end\n")?.as_str())?;
        for n in 1..nodes {
            text.push_str(format!(in heap; "flow {n} {n} {}\n", n.saturating_add(1))?.as_str())?;
        }
        for n in nodes..flows {
            let from = n.saturating_sub(nodes).saturating_add(2);
            text.push_str(format!(in heap;
                "flow {n} {from} {}\n",
                from.saturating_add(2)
            )?.as_str())?;
        }
        Ok(text)
    }

    #[test]
    fn the_most_nodes_and_flows(rt: HostRuntime) -> Result<(), Fail> {
        let heap = rt.alloc();
        assert_eq!(rt; verdict(row_of_gateways(heap, 40, 65)?.as_bytes()), None);
        assert_eq!(rt;
            verdict(row_of_gateways(heap, 40, 66)?.as_bytes()),
            Some((24, 2, 106))
        );
        assert_eq!(rt;
            verdict(row_of_gateways(heap, 41, 42)?.as_bytes()),
            Some((24, 2, 42))
        );
        Ok(())
    }

    #[test]
    fn long_words_and_texts(rt: HostRuntime) -> Result<(), Fail> {
        let heap = rt.alloc();
        let mut digits = Vec::from_slice(heap, b"process ")?;
        for _ in 0..10_000 {
            digits.push(b'1')?;
        }
        digits.push(b'\n')?;
        assert_eq!(rt; verdict(digits.as_slice()), Some((22, 2, 1)));
        let mut letters = Vec::new(heap);
        for _ in 0..16_383 {
            letters.push(b'a')?;
        }
        letters.push(b'\n')?;
        assert_eq!(rt; verdict(letters.as_slice()), Some((21, 2, 1)));
        letters.push(b'\n')?;
        assert_eq!(rt; verdict(letters.as_slice()), Some((11, 1, 0)));
        Ok(())
    }

    #[test]
    fn a_refused_text_leaves_the_place(rt: HostRuntime) {
        let mut place = Model::new();
        assert_eq!(rt; place.number(), 1);
        assert_eq!(rt; place.nodes(), [Kind::Start, Kind::End].as_slice());
        assert!(rt;
            read_model(
                &mut place,
                b"process 5\nnode 1 start\nnode 2 xor\nnode 3 end\nflow 1 1 2\nflow 2 2 3\n",
            )
            .is_ok()
        );
        assert!(rt; read_model(&mut place, b"process 6\n").is_err());
        assert_eq!(rt; place.number(), 5);
        assert_eq!(rt; place.nodes().len(), 3);
    }
}
