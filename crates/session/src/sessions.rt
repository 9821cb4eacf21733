//! A plan with the labels of its flows, as it is kept. The struct stands alone: definitions that contracts cite name it.
ghost use Rattle.std.specs.Prelude.{◌≡◌, length};
ghost use Rattle.planner.specs.Outcomes.{any_shows};
ghost use Rattle.session.specs.Sessions.{Named};

use fabric::Fabric;
use labels::names::Name;
use planner::any_plans::AnyPlan;

/// A plan, and what its flows are called: entry n of the labels is flow n's.
// The labels are no part of a booking: a directory of labels is memory of 64 entries, for every kind, and knows no plan.
#[derive(Drop)]
pub(crate) struct Session<F: Fabric> {
    pub(crate) plan: AnyPlan<F>,
    pub(crate) labels: [Option<Name>; 64],
    ghost sized: { length labels ≡ 64 },
    ghost named: { Named (record { shown = any_shows F.Fabric.meaning plan; labels = labels }) },
}
