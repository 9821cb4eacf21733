//! How a script is run.
ghost use Rattle.std.specs.Prelude.{◌≡◌, ℕ, ◌≤◌, List, [], ◌∷◌, length, Ok, OnOk};
ghost use Rattle.script.specs.Lines.{LinesOf, left};
ghost use Rattle.session.specs.Answers.{answer_line};
ghost use Rattle.session.specs.Output.{CommandTold, Handed, LineTold, OpeningTold, Output, RestTold};
ghost use Rattle.session.specs.Parts.{Tells, state_of};

use crate::builds::Built;
use crate::faults::ScriptFault;
use crate::printers::{Printer, RunFault};
use crate::sessions::Session;
use crate::starting::{build, period_of};
use crate::tellers::Teller;
use fabric::Fabric;
use script::commands::{Command, read_command};
use script::lines::Lines;
use std::alloc::Global;

/// How many bytes a script may have.
pub const LIMIT: usize = 16_384;

impl<P: Printer> Teller<'_, P> {
    // Obeys a command, and prints what it is told.
    fn tell_command<F: Fabric + Drop>(
        &mut self,
        session: &mut Session<F>,
        command: Command,
        number: usize,
    ) -> Result<(), RunFault>
        ensures { OnOk result ((piece : List (List ℕ)) × CommandTold number (state_of session.old) command piece (state_of session.new) × Tells P.Printer.took self.old piece self.new) }
    {
        match command {
            Command::Show => session.show(self),
            _ => {
                let given = session.obey(command);
                self.answer(given, number)
            }
        }
    }

    // Obeys a line after the first two, and prints what it is told.
    fn tell_line<F: Fabric + Drop>(
        &mut self,
        session: &mut Session<F>,
        line: &[u8],
        number: usize,
    ) -> Result<(), RunFault>
        ensures { OnOk result ((piece : List (List ℕ)) × LineTold number (state_of session.old) line.now piece (state_of session.new) × Tells P.Printer.took self.old piece self.new) }
    {
        match read_command(line) {
            Some(command) => self.tell_command(session, command, number),
            None => self.answer(Err(ScriptFault::NoForm), number),
        }
    }

    // Obeys the lines that are left of a script, of which the first is line 3.
    fn run_rest<F: Fabric + Drop>(
        &mut self,
        lines: Lines<'_>,
        mut session: Session<F>,
    ) -> Result<(), RunFault>
        requires { length (left lines) ≤ 16384 }
        ensures { OnOk result ((all : List (List ℕ)) × (told : List (List ℕ)) × LinesOf (left lines.entry) all × RestTold 3 (state_of session) all told × Tells P.Printer.took self.old told self.new) }
    {
        for (number, line) in (3..).zip(lines) {
            self.tell_line(&mut session, line, number)?;
        }
        Ok(())
    }

    // Runs the lines that are left of a script, of which the first is line 2, over the fabric of line 1.
    fn run_over<F: Fabric + Drop>(
        &mut self,
        mut lines: Lines<'_>,
        fabric: F,
    ) -> Result<(), RunFault>
        requires { length (left lines) ≤ 16384 }
        ensures { OnOk result ((all : List (List ℕ)) × (told : List (List ℕ)) × LinesOf (left lines.entry) all × OpeningTold (F.Fabric.meaning fabric) all told × Tells P.Printer.took self.old (answer_line (Ok tt) 1 ∷ told) self.new) }
    {
        self.answer(Ok(()), 1)?;
        let Some(line) = lines.next() else {
            return Ok(());
        };
        match period_of(line) {
            Ok(period) => {
                self.answer(Ok(()), 2)?;
                self.run_rest(lines, Session::open(fabric, period))
            }
            Err(fault) => self.answer(Err(fault), 2),
        }
    }

    // Runs a script.
    fn run(&mut self, script: &[u8]) -> Result<(), RunFault>
        ensures { OnOk result ((told : List (List ℕ)) × Output script.now told × Tells P.Printer.took self.old told self.new) }
    {
        if script.len() > LIMIT {
            return self.answer(Err(ScriptFault::NoForm), 0);
        }
        let mut lines = Lines::new(script);
        let Some(line) = lines.next() else {
            return Ok(());
        };
        match build(line) {
            Ok(Built::Line(fabric)) => self.run_over(lines, fabric),
            Ok(Built::Tree(fabric)) => self.run_over(lines, fabric),
            Err(fault) => self.answer(Err(fault), 1),
        }
    }
}

/// Runs a script, and prints the answers to its lines.
pub fn run_script<P: Printer>(script: &[u8], heap: Global, out: &mut P) -> Result<(), RunFault>
    ensures { OnOk result ((lines : List (List ℕ)) × Output script.now lines × Handed P.Printer.took out.old lines out.new) }
{
    Teller { heap, out }.run(script)
}
