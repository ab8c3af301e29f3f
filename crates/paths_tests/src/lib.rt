//! Examples of the path rule: who holds a gateway back, and why.
#![tactic(auto)]

use model::model::Model;
use paths::reason::{Reason, why};
use paths::routing::Routing;
use paths::rule::{holding_number, path_rule};
use process::draft::Draft;
use process::flow::Guard;
use process::node::Kind;
use process::sets::FlowSet;
use reading::model_text::read_model;

/// Node 3 splits three ways, and the inclusive gateway 6 joins them.
pub const PROCESS_7: &[u8] =
    b"process 7\nnode 1 start\nnode 2 task v1\nnode 3 or\nnode 4 task v2\nnode 5 task v3\nnode 6 or\nnode 7 end\nflow 1 1 2\nflow 2 2 3\nflow 3 3 4 if v1 >= 1\nflow 4 3 5 if v1 >= 2\nflow 5 3 6 default\nflow 6 4 6\nflow 7 5 6\nflow 8 6 7\n";
/// A loop leads back to the inclusive gateway 2.
pub const PROCESS_8: &[u8] =
    b"process 8\nnode 1 start\nnode 2 or\nnode 3 xor\nnode 4 end\nflow 1 1 2\nflow 2 2 3\nflow 3 3 4 default\nflow 4 3 2 if v1 > 0\n";
/// Each of the inclusive gateways 3 and 4 waits for a branch that leads through the other.
pub const CIRCLE: &[u8] =
    b"process 9\nnode 1 start\nnode 2 and\nnode 3 or\nnode 4 or\nnode 5 end\nnode 6 end\nflow 1 1 2\nflow 2 2 3\nflow 3 2 4\nflow 4 3 4 if v1 > 0\nflow 5 4 3 if v1 > 0\nflow 6 3 5 default\nflow 7 4 6 default\n";

/// A marking, and what the path rule says of a gateway there: whether it holds, how many flows hold the gateway back,
/// and the path of the reason, which is empty where there is none.
#[derive(Clone, Copy)]
pub struct Case<'a> {
    pub tokens: &'a [u8],
    pub gateway: u8,
    pub rule: bool,
    pub holding: u32,
    pub path: &'a [u8],
}

/// The model of a text with its tables.
fn routing_of(text: &[u8]) -> Routing {
    let mut place = Model::new();
    let _ = read_model(&mut place, text);
    Routing::of(place)
}

// Whether the reason is the one that the path tells, the list begins with the path, and is untouched behind it.
fn same_reason(routing: &Routing, case: Case<'_>) -> bool {
    let mut list = [255; 64];
    let told = why(routing, FlowSet::of(case.tokens), case.gateway, &mut list);
    let ends = case.path.first().zip(case.path.last());
    let expected = ends.map(|(holder, end)| Reason {
        holder: *holder,
        end: *end,
        length: case.path.len(),
    });
    let Some((front, rest)) = list.split_at_checked(case.path.len()) else {
        return false;
    };
    told == expected && front == case.path && rest.iter().all(|flow| *flow == 255)
}

// Whether the calls say of the case what it tells.
fn agrees(routing: &Routing, case: Case<'_>) -> bool {
    let tokens = FlowSet::of(case.tokens);
    path_rule(routing, tokens, case.gateway) == case.rule
        && holding_number(routing, tokens, case.gateway) == case.holding
        && same_reason(routing, case)
}

/// The place of the first case of which the calls say something else.
fn first_wrong(routing: &Routing, cases: &[Case<'_>]) -> Option<usize> {
    cases.iter().position(|case| !agrees(routing, *case))
}

/// A chain of 40 nodes by 39 flows, where 25 flows more lead beside those from node 2 to node 27.
fn long_chain() -> Routing {
    let Ok(mut draft) = Draft::new(0, 10) else {
        return Routing::of(Model::new());
    };
    let _ = draft.add_node(0, 1, Kind::Start);
    for n in 2..40 {
        let _ = draft.add_node(0, n, Kind::Parallel);
    }
    let _ = draft.add_node(0, 40, Kind::End);
    for n in 1..40 {
        let _ = draft.add_flow(0, n, n, n + 1, Guard::Plain);
    }
    for n in 2..27 {
        let _ = draft.add_flow(0, n + 38, n, n + 1, Guard::Plain);
    }
    Routing::of(Model::check(draft).unwrap_or_else(|_| Model::new()))
}

#[cfg(test)]
mod tests {
    use super::*;

    #[test]
    fn the_branches_of_process_7(rt: HostRuntime) {
        assert_eq!(rt;
            first_wrong(
                &routing_of(PROCESS_7),
                &[
                    Case {
                        tokens: &[6],
                        gateway: 6,
                        rule: true,
                        holding: 0,
                        path: &[],
                    },
                    Case {
                        tokens: &[4, 6],
                        gateway: 6,
                        rule: false,
                        holding: 1,
                        path: &[4, 7],
                    },
                    Case {
                        tokens: &[2, 6],
                        gateway: 6,
                        rule: true,
                        holding: 0,
                        path: &[],
                    },
                    Case {
                        tokens: &[2],
                        gateway: 6,
                        rule: false,
                        holding: 1,
                        path: &[2, 5],
                    },
                    Case {
                        tokens: &[3, 4, 5],
                        gateway: 6,
                        rule: false,
                        holding: 2,
                        path: &[3, 6],
                    },
                ],
            ),
            None
        );
    }

    #[test]
    fn the_loop_of_process_8(rt: HostRuntime) {
        assert_eq!(rt;
            first_wrong(
                &routing_of(PROCESS_8),
                &[
                    Case {
                        tokens: &[1],
                        gateway: 2,
                        rule: true,
                        holding: 0,
                        path: &[],
                    },
                    Case {
                        tokens: &[1, 2],
                        gateway: 2,
                        rule: false,
                        holding: 1,
                        path: &[2, 4],
                    },
                    // the token on flow 2 can come back to a token only
                    Case {
                        tokens: &[1, 2, 4],
                        gateway: 2,
                        rule: true,
                        holding: 0,
                        path: &[],
                    },
                    // no inbound flow carries a token
                    Case {
                        tokens: &[2],
                        gateway: 2,
                        rule: false,
                        holding: 1,
                        path: &[2, 4],
                    },
                    // there is neither such a flow nor such a gateway
                    Case {
                        tokens: &[1, 60],
                        gateway: 2,
                        rule: true,
                        holding: 0,
                        path: &[],
                    },
                    Case {
                        tokens: &[1, 2],
                        gateway: 41,
                        rule: false,
                        holding: 0,
                        path: &[],
                    },
                ],
            ),
            None);
    }

    #[test]
    fn two_gateways_wait_for_each_other(rt: HostRuntime) {
        assert_eq!(rt;
            first_wrong(
                &routing_of(CIRCLE),
                &[
                    Case {
                        tokens: &[2, 3],
                        gateway: 3,
                        rule: false,
                        holding: 1,
                        path: &[3, 5],
                    },
                    Case {
                        tokens: &[2, 3],
                        gateway: 4,
                        rule: false,
                        holding: 1,
                        path: &[2, 4],
                    },
                    // one token alone waits for nobody
                    Case {
                        tokens: &[2],
                        gateway: 3,
                        rule: true,
                        holding: 0,
                        path: &[],
                    },
                ],
            ),
            None);
    }

    #[test]
    fn a_path_along_64_flows(rt: HostRuntime) {
        let routing = long_chain();
        assert_eq!(rt; routing.inbound(27), FlowSet::of(&[26, 64]));
        assert_eq!(rt; routing.outgoing(2), FlowSet::of(&[2, 40]));
        let mut list = [0; 64];
        assert_eq!(rt;
            why(&routing, FlowSet::single(1), 40, &mut list),
            Some(Reason {
                holder: 1,
                end: 39,
                length: 39,
            })
        );
        assert_eq!(rt;
            holding_number(&routing, FlowSet::of(&[1, 5, 43, 64]), 40),
            4
        );
    }

    #[test]
    fn sets_of_flows(rt: HostRuntime) {
        let set = FlowSet::of(&[0, 64, 2, 65, 2]);
        assert_eq!(rt; set.len(), 2);
        assert_eq!(rt; set.lowest(), Some(2));
        assert_eq!(rt; set.next_after(2), Some(64));
        assert_eq!(rt; set.nth(2), None);
        assert_eq!(rt; set.contains(65), false);
        assert_eq!(rt; set.remove(2), FlowSet::single(64));
    }
}
