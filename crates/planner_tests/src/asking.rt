//! What the tests ask plans with, and how they read the answers.
use fabric::lines::Line;
use fabric::pairs::Pair;
use planner::flows::Flow;
use planner::periods::Period;
use planner::plan_faults::PlanFault;
use planner::plans::Plan;
use planner::questions::Questions;
use planner::states::Resting;
use std::test::Fail;

pub(crate) fn flow(source: u16, destination: u16, demand: u16) -> Flow {
    Flow {
        ends: Pair {
            source,
            destination,
        },
        demand,
    }
}

// An answer as a test compares it: the number of a refusal and its group, 0 for none.
pub(crate) fn told(answer: Result<(), PlanFault>) -> Result<(), (u8, u64)> {
    answer.map_err(|fault| match fault {
        PlanFault::NoOrder(group) | PlanFault::NoPlacing(group) => (fault.number(), group.bits()),
        _ => (fault.number(), 0),
    })
}

// An empty plan over a line of so many terminals.
pub(crate) fn on_line(terminals: u16, slots: u16) -> Result<Plan<Line, Resting>, Fail> {
    Ok(Plan::open(Line::new(terminals)?, Period::new(slots)?))
}

// The slots that a flow holds: bit s for slot s.
pub(crate) fn held(plan: &impl Questions, number: u16) -> u64 {
    // a loop, since each slot is asked for by its number and has its bit by it
    let mut slots = 0;
    for slot in 0..64u8 {
        if plan.holds(number, u16::from(slot)) {
            slots |= 1u64 << slot;
        }
    }
    slots
}
