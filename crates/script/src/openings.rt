//! The line of a script that opens the plan.
ghost use Rattle.std.specs.Prelude.{ℕ, MatchOption};
ghost use Rattle.script.specs.Openings.{IsOpening};

use crate::arguments::{sole, verb_first};
use crate::marks::{Marks, mark_line};
use crate::verbs::Verb;

/// The period that the line opens the plan with; none where it opens none.
pub fn read_opening(line: &[u8]) -> Option<u16>
    ensures { MatchOption result
        ((period : ℕ) → IsOpening line.now period → ⊥)
        (IsOpening line.now) }
{
    let mut marks = Marks::new();
    mark_line(line, &mut marks)?;
    match verb_first(line, marks.as_slice())? {
        (Verb::Open, arguments) => sole(line, arguments),
        _ => None,
    }
}
