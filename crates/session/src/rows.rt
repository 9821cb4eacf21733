//! Rows of tests: which flows are in a group, and which slots a flow holds.
ghost use Rattle.std.specs.Prelude.{◌≡◌, length, take};
ghost use Rattle.session.specs.Answers.{group_row};
ghost use Rattle.session.specs.Shows.{slot_row};

use planner::flow_sets::FlowSet;
use planner::questions::Questions;
use std::array;

/// Which of the 64 flows are in the group.
pub(crate) fn group_row(group: FlowSet) -> [bool; 64]
    ensures { result ≡ group_row group }
{
    // no bits are lost: there are 64 flows
    array::from_fn(|flow| group.contains_flow(flow as u16))
}

/// Which slots the flow holds; past the period, none is asked for.
pub(crate) fn slot_row<Q: Questions>(plan: &Q, number: u16) -> [bool; 255]
    ensures row { take (Q.shown plan.now).period result ≡ slot_row (Q.shown plan.now) number }
    ensures whole { length result ≡ 255 }
{
    // a loop, since `from_fn` would go through all 255 slots, however short the period is
    let mut row = [false; 255];
    for slot in 0..plan.period() {
        row[usize::from(slot)] = plan.holds(number, u16::from(slot));
    }
    row
}
