//! The lines of `show`.
ghost use Rattle.std.specs.Prelude.{ℕ, List, Some, OnOk};
ghost use Rattle.labels.specs.Names.{spelled};
ghost use Rattle.session.specs.Parts.{Tells, state_of};
ghost use Rattle.session.specs.Shows.{ShowsBelow, flow_line};

use crate::printers::{Printer, RunFault};
use crate::rows::slot_row;
use crate::sessions::Session;
use crate::tellers::Teller;
use fabric::Fabric;
use labels::names::Name;
use planner::questions::Questions;
use script::ranges::Ranges;
use std::fmt;

// A booked flow, as `show` tells it.
#[derive(Clone, Copy, PartialEq, Eq, Debug)]
struct FlowLine<'a> {
    name: Name,
    number: u16,
    demand: u16,
    wait: u8,
    held: &'a [bool],
}

impl fmt::Display for FlowLine<'_> {
    ghost output = { λ line. Some (flow_line (spelled line.name) line.number line.demand line.wait line.held.now) };

    fn fmt<W: fmt::Write>(&self, f: &mut fmt::Formatter<W>) -> fmt::Result {
        let FlowLine {
            name,
            number,
            demand,
            wait,
            held,
        } = *self;
        let slots = Ranges(held);
        write!(f, "{name} {number} {demand} {wait} {slots}")
    }
}

impl<F: Fabric + Drop> Session<F> {
    /// Prints the lines of all booked flows, by number.
    pub(crate) fn show<P: Printer>(&self, teller: &mut Teller<'_, P>) -> Result<(), RunFault>
        ensures { OnOk result ((lines : List (List ℕ)) × ShowsBelow (state_of self.now) 64 lines × Tells P.Printer.took teller.old lines teller.new) }
    {
        // every booked flow has a label, and no other
        for (at, label) in self.labels.iter().enumerate() {
            if let Some(name) = label {
                // no bits are lost: there are 64 labels
                let number = at as u16;
                let row = slot_row(&self.plan, number);
                teller.tell(&FlowLine {
                    name: *name,
                    number,
                    demand: self.plan.demand(number),
                    wait: self.plan.wait(number),
                    held: &row[..usize::from(self.plan.period())],
                })?;
            }
        }
        Ok(())
    }
}
