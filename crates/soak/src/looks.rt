//! What must not be seen in a plan: two flows on one link in one slot, and a flow with other slots than its demand.
use fabric::Fabric;
use fabric::overlaps::overlap;
use planner::any_plans::AnyPlan;
use planner::questions::Questions;

// How many slots of the period the flow holds.
fn held<F: Fabric>(plan: &AnyPlan<F>, number: u16) -> usize {
    (0..u16::from(plan.period()))
        .filter(|slot| plan.holds(number, *slot))
        .count()
}

// Whether the flow holds slots, and not as many as it demands.
fn is_miscounted<F: Fabric>(plan: &AnyPlan<F>, number: u16) -> bool {
    let count = held(plan, number);
    count != 0 && count != usize::from(plan.demand(number))
}

/// How many flows hold slots, and not as many as they demand.
pub(crate) fn miscounts<F: Fabric>(plan: &AnyPlan<F>) -> usize {
    (0..70)
        .filter(|number| is_miscounted(plan, *number))
        .count()
}

// Whether both flows hold some slot.
fn meet<F: Fabric>(plan: &AnyPlan<F>, one: u16, other: u16) -> bool {
    (0..u16::from(plan.period())).any(|slot| plan.holds(one, slot) && plan.holds(other, slot))
}

// With how many flows below it the flow is carried on one link in one slot.
// Which flow is booked is asked before the others are gone over: most numbers are free, and each look goes over all pairs.
fn clashes<F: Fabric>(plan: &AnyPlan<F>, twin: &F, one: u16) -> usize {
    let Some(first) = plan.flow(one) else {
        return 0;
    };
    (0..one)
        .filter(|other| {
            plan.flow(*other).is_some_and(|second| {
                meet(plan, one, *other) && overlap(twin, first.ends, second.ends)
            })
        })
        .count()
}

/// How many pairs of flows are carried on one link in one slot.
pub(crate) fn doubles<F: Fabric>(plan: &AnyPlan<F>, twin: &F) -> usize {
    (0..64)
        .map(|one| clashes(plan, twin, one))
        .fold(0, usize::saturating_add)
}
