//! How the lines of a session are told.
ghost use Rattle.std.specs.Prelude.{◌≡◌, ℕ, List, [], ◌∷◌, Some, OnOk};
ghost use Rattle.session.specs.Answers.{answer_line};
ghost use Rattle.session.specs.Parts.{Tells};

use crate::answers::AnswerLine;
use crate::faults::ScriptFault;
use crate::printers::{Printer, RunFault};
use std::alloc::Global;
use std::fmt::Display;

/// Makes each line on the heap, and hands it to a printer.
#[derive(Drop)]
pub(crate) struct Teller<'a, P> {
    pub(crate) heap: Global,
    pub(crate) out: &'a mut P,
}

impl<P: Printer> Teller<'_, P> {
    /// Prints a line.
    pub(crate) fn tell<D: Display>(&mut self, line: &D) -> Result<(), RunFault>
        ensures { (text : List ℕ) → D.output line.now ≡ Some text → OnOk result (Tells P.Printer.took self.old (text ∷ []) self.new) }
    {
        let text = line.to_string(self.heap)?;
        self.out.print_line(text.as_str())?;
        Ok(())
    }

    /// Prints the answer to the line of this number.
    pub(crate) fn answer(
        &mut self,
        given: Result<(), ScriptFault>,
        number: usize,
    ) -> Result<(), RunFault>
        ensures { OnOk result (Tells P.Printer.took self.old (answer_line given number ∷ []) self.new) }
    {
        self.tell(&AnswerLine { given, number })
    }
}
