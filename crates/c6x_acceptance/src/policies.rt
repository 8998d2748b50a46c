ghost use Rattle.c6x_ports.specs.Picks.{IsReady};

use c6x_ports::{DrawnBySeed, LastFirst, Pick, Policy, RoundRobin, effective_pick};
use std::alloc::AllocError;

/// Four answers of a policy for processes 0, 2 and 5 of six, with turns of at most ten cycles.
fn picks(policy: &mut Box<dyn Policy>) -> [(u32, u32); 4] {
    policy.begin(6, 10, 1);
    let mut picks = [(0, 0); 4];
    for place in 0..4 {
        let pick = policy.choose(&[0, 2, 5]);
        picks[place] = (pick.process, pick.steps);
    }
    picks
}

// Worked out from the rules by hand: the numbers behind 1 are 1015568748, 1586005467, 2165703038 and 3027450565.
#[test]
fn named_kinds_pick(rt: HostRuntime) -> Result<(), AllocError> {
    let mut round: Box<dyn Policy> = Box::new(rt.alloc(), RoundRobin::new())?;
    let mut last: Box<dyn Policy> = Box::new(rt.alloc(), LastFirst::new())?;
    let mut drawn: Box<dyn Policy> = Box::new(rt.alloc(), DrawnBySeed::new())?;
    assert_eq!(rt; picks(&mut round), [(0, 10), (2, 10), (5, 10), (0, 10)]);
    assert_eq!(rt; picks(&mut last), [(5, 10), (5, 10), (5, 10), (5, 10)]);
    assert_eq!(rt; picks(&mut drawn), [(0, 6), (0, 2), (5, 6), (5, 3)]);
    Ok(())
}

// A pick of another policy stands for the next ready process, upwards and round, and for one to ten cycles.
#[test]
fn any_pick_stands_for_a_turn(rt: HostRuntime) {
    for (process, steps, turn) in [
        (0, 0, (0, 1)),
        (1, 11, (2, 10)),
        (3, 10, (5, 10)),
        (6, 1, (0, 1)),
        (4294967295, 7, (5, 7)),
    ] {
        let pick = effective_pick(Pick { process, steps }, &[0, 2, 5], 6, 10);
        assert_eq!(rt; (pick.process, pick.steps), turn, "{process} {steps}");
    }
}
