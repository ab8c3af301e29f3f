ghost use Rattle.std.specs.Prelude.{◌≡◌, ℕ, ◌==◌, if◌then◌else◌};
ghost use Rattle.service.specs.Waits.{rest};
ghost use Rattle.service_tests.specs.Waiting.{waits_for, Made, two_oldest};
ghost use Rattle.std.proofs.Common.{rules};

use super::Single;
use fault::service::ServiceFault;
use process::ranges::is_node_number;
use service::answer::Answer;
use service::service::Service;

impl Single {
    /// The answer for the node. Refused where a number is out of its range.
    pub fn new(node: u16, answer: Answer) -> Result<Single, ServiceFault>
        ensures { Made node answer result }
    {
        if !is_node_number(node) {
            return Err(ServiceFault::NodeNumber { node });
        }
        if !answer.in_range() {
            return Err(ServiceFault::Value);
        }
        Ok(Single {
            node,
            answer: Some(answer),
        })
    }
}

impl Service for Single {
    ghost waits = { waits_for };

    ghost ranged = { Prim.search rules };

    ghost numbered = { Prim.search rules };

    fn waiting(&self, node: u16) -> usize {
        usize::from(node == self.node && self.answer.is_some())
    }

    fn take(&mut self, node: u16) -> Result<Answer, ServiceFault> {
        match self.answer {
            Some(answer) if node == self.node => {
                self.answer = None;
                Ok(answer)
            }
            _ => Err(ServiceFault::NoAnswer { node }),
        }
    }
}

/// The two oldest answers for a node, of any service.
pub fn take_two<S: Service>(service: &mut S, node: u16) -> Result<(Answer, Answer), ServiceFault>
    ensures reply { result ≡ two_oldest (S.waits service.old node) node }
    ensures after { (n : ℕ) → S.waits service.new n ≡ (if n == node then rest (rest (S.waits service.old n)) else S.waits service.old n) }
{
    let first = service.take(node)?;
    let second = service.take(node)?;
    Ok((first, second))
}

#[cfg(test)]
mod tests {
    use super::*;
    use service::order_file::OrderFile;
    use service::tray::Tray;
    use std::test::Fail;

    #[test]
    fn one_answer(rt: HostRuntime) -> Result<(), Fail> {
        let answer = Answer { value: 5 };
        assert!(rt; Single::new(41, answer).is_err());
        let mut single = Single::new(40, answer)?;
        assert_eq!(rt; (single.waiting(40), single.waiting(1)), (1, 0));
        assert!(rt; single.take(1) == Err(ServiceFault::NoAnswer { node: 1 }));
        assert_eq!(rt; single.take(40)?, answer);
        assert!(rt; single.take(40) == Err(ServiceFault::NoAnswer { node: 40 }));
        Ok(())
    }

    #[test]
    fn the_same_calls_for_every_service(rt: HostRuntime) -> Result<(), Fail> {
        let two = (Answer { value: 2 }, Answer { value: 310 });
        let mut tray = Tray::new();
        tray.put(7, 2)?;
        tray.put(7, 310)?;
        assert_eq!(rt; take_two(&mut tray, 7)?, two);
        let mut order = OrderFile::over(b"answer 7 2\nanswer 7 310\n");
        assert_eq!(rt; take_two(&mut order, 7)?, two);
        let mut single = Single::new(7, two.0)?;
        assert!(rt; take_two(&mut single, 7) == Err(ServiceFault::NoAnswer { node: 7 }));
        Ok(())
    }
}
