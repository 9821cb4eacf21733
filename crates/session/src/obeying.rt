//! How a command is obeyed.
ghost use Rattle.std.specs.Prelude.{◌≡◌, ◌≢◌, ◌⊎◌};
ghost use Rattle.planner.specs.declared.calls.Call.TheVariants.{Enrol, Admit};
ghost use Rattle.script.specs.declared.commands.Command.TheVariants.{Show};
ghost use Rattle.session.specs.Parts.{state_of};
ghost use Rattle.session.specs.Sessions.{BooksLabelled, Obeyed, UnbooksLabelled, flow_of};

use crate::calling::{allows, make};
use crate::faults::ScriptFault;
use crate::sessions::Session;
use fabric::Fabric;
use fabric::pairs::Pair;
use labels::directories::{bind, find_bound, unbind};
use labels::names::Name;
use planner::calls::Call;
use planner::flows::Flow;
use script::commands::{Command, Wanted};

// The flow that a command wants. No `From`, since both types are other crates'.
fn flow_of(wanted: Wanted) -> Flow
    ensures { result ≡ flow_of wanted }
{
    Flow {
        ends: Pair {
            source: wanted.source,
            destination: wanted.destination,
        },
        demand: wanted.demand,
    }
}

impl<F: Fabric + Drop> Session<F> {
    // Books a flow under a label. Were the call's constructor passed, as `C: Fn(u16, Flow) -> Call`, three clauses would take the
    // place of the one: that it may be called, what it can make, and to which call the answer is.
    fn book(&mut self, call: Call, wanted: Wanted) -> Result<(), ScriptFault>
        requires { (call ≡ Enrol wanted.number (flow_of wanted)) ⊎ (call ≡ Admit wanted.number (flow_of wanted)) }
        ensures { BooksLabelled (state_of self.old) call wanted result (state_of self.new) }
    {
        if !allows(self.plan.is_running(), call) {
            return Err(ScriptFault::WrongState);
        }
        bind(&mut self.labels, wanted.number, wanted.name)?;
        if let Err(fault) = make(&mut self.plan, call) {
            // the entry was empty before, so the labels are again as they were
            unbind(&mut self.labels, wanted.number)?;
            return Err(fault);
        }
        Ok(())
    }

    // Withdraws the flow of a label.
    fn unbook(&mut self, name: Name) -> Result<(), ScriptFault>
        ensures { UnbooksLabelled (state_of self.old) name result (state_of self.new) }
    {
        let number = u16::from(find_bound(&self.labels, name)?);
        make(&mut self.plan, Call::Withdraw(number))?;
        Ok(unbind(&mut self.labels, number)?)
    }

    /// Obeys a command that is not `show`.
    pub(crate) fn obey(&mut self, command: Command) -> Result<(), ScriptFault>
        requires { command ≢ Show }
        ensures { Obeyed (state_of self.old) command result (state_of self.new) }
    {
        match command {
            Command::Enrol(wanted) => {
                self.book(Call::Enrol(wanted.number, flow_of(wanted)), wanted)
            }
            Command::Admit(wanted) => {
                self.book(Call::Admit(wanted.number, flow_of(wanted)), wanted)
            }
            Command::Withdraw(name) => self.unbook(name),
            Command::Replan => make(&mut self.plan, Call::Replan),
            Command::Start => make(&mut self.plan, Call::Start),
            Command::Rest => make(&mut self.plan, Call::Rest),
            Command::Show => unreachable(),
        }
    }
}
