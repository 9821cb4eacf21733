//! The laws that the planner rests on. A function here computes nothing: its contract is a theorem.

ghost use Rattle.planner.specs.Orders.{OrdersStand};
ghost use Rattle.planner.specs.Slots.{EarliestStands, SumsStand, StepsStand, GreedyStands, SpansStand};
ghost use Rattle.planner.specs.Plans.{PlansStand};

/// An order of the flows exists exactly when the choice from the end does not get stuck, and then that choice is one.
pub fn orders_stand()
    ensures { OrdersStand }
{}

/// The earliest valid slots can be taken exactly where there are enough, and they are the only ones.
pub fn earliest_stands()
    ensures { EarliestStands }
{}

/// Flows that all overlap hold together as many slots as they demand, which is at most the period.
pub fn sums_stand()
    ensures { SumsStand }
{}

/// A flow finds too few slots exactly when it and the earlier flows that overlap it demand more than the period; then nothing places them.
pub fn steps_stand()
    ensures { StepsStand }
{}

/// Along an order the greedy makes a placing, or falls short and there is none.
pub fn greedy_stands()
    ensures { GreedyStands }
{}

/// The span after the greedy is the greatest demand of flows that all overlap, and no placing has a smaller one.
pub fn spans_stand()
    ensures { SpansStand }
{}

/// Flows have no order, or are placed along the chosen one, or have no placing.
pub fn plans_stand()
    ensures { PlansStand }
{}
