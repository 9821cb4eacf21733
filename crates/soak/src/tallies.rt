//! What was done and seen, counted.
use planner::plan_faults::PlanFault;
use std::fmt;
use std::ops::AddAssign;

// The counts stop at the greatest number, since nothing bounds how often they grow.
#[derive(Clone, Copy, Default)]
pub(crate) struct Tally {
    calls: usize,
    accepted: usize,
    refused: usize,
    not_allowed: usize,
    doubles: usize,
    miscounts: usize,
}

impl Tally {
    /// A call is about to be made.
    pub(crate) fn note_call(&mut self) {
        self.calls = self.calls.saturating_add(1);
    }

    pub(crate) fn note_answer(&mut self, answer: Result<(), PlanFault>) {
        let count = match answer {
            Ok(()) => &mut self.accepted,
            Err(_) => &mut self.refused,
        };
        *count = count.saturating_add(1);
    }

    pub(crate) fn note_not_allowed(&mut self) {
        self.not_allowed = self.not_allowed.saturating_add(1);
    }

    /// What a look at a plan found.
    pub(crate) fn note_look(&mut self, doubles: usize, miscounts: usize) {
        self.doubles = self.doubles.saturating_add(doubles);
        self.miscounts = self.miscounts.saturating_add(miscounts);
    }
}

impl AddAssign for Tally {
    fn add_assign(&mut self, more: Tally) {
        self.calls = self.calls.saturating_add(more.calls);
        self.accepted = self.accepted.saturating_add(more.accepted);
        self.refused = self.refused.saturating_add(more.refused);
        self.not_allowed = self.not_allowed.saturating_add(more.not_allowed);
        self.note_look(more.doubles, more.miscounts);
    }
}

impl fmt::Display for Tally {
    fn fmt<W: fmt::Write>(&self, f: &mut fmt::Formatter<W>) -> fmt::Result {
        let Tally {
            calls,
            accepted,
            refused,
            not_allowed,
            doubles,
            miscounts,
        } = self;
        write!(
            f,
            "{calls} calls: {accepted} accepted, {refused} refused, {not_allowed} in the wrong state; "
        )?;
        write!(f, "{doubles} double slots, {miscounts} wrong counts")
    }
}
