//! The slots of a flow, as an answer tells them: ranges, each without its upper end.
ghost use Rattle.std.specs.Prelude.{◌≡◌, ℕ, ◌<◌, ◌≤◌, false, length, Some, MatchOption, ◌≢◌, slice_index_or, ⊤};
ghost use Rattle.std.specs.Iterator.{YieldsFirst, item_count};
ghost use Rattle.script.specs.Ranges.{left, runs, range, ranges};

use crate::lists::write_parted;
use std::fmt;

// A run of slots that are held, from the first up to the one after the last.
#[derive(Clone, Copy)]
struct Run {
    from: usize,
    to: usize,
}

impl fmt::Display for Run {
    ghost output = { λ run. Some (range run) };

    fn fmt<W: fmt::Write>(&self, f: &mut fmt::Formatter<W>) -> fmt::Result {
        write!(f, "{}-{}", self.from, self.to)
    }
}

// The runs of a row from a place on.
// A place in the row, and not what is left of it: runs are told by their numbers.
#[derive(Drop)]
struct Runs<'a> {
    row: &'a [bool],
    at: usize,
}

impl Iterator for Runs<'_> {
    type Item = Run;

    ghost can_next = { λ runs. ⊤ };

    ghost next_gives = { YieldsFirst left };

    ghost remaining = { item_count left };

    fn next(&mut self) -> Option<Run> {
        let from = next_place(self.row, self.at, true)?;
        let to = next_place(self.row, from, false).unwrap_or(self.row.len());
        self.at = to;
        Some(Run { from, to })
    }
}

// The first place of the row, from a place on, that is held, or that is not.
fn next_place(row: &[bool], from: usize, held: bool) -> Option<usize>
    ensures { MatchOption result
        ((k : ℕ) → from ≤ k → k < length row.now → slice_index_or row.now k false ≢ held)
        (λ place. (from ≤ place) × (place < length row.now)
        × ((k : ℕ) → from ≤ k → k < place → slice_index_or row.now k false ≢ held)
        × (slice_index_or row.now place false ≡ held)) }
{
    (from..row.len()).find(|place| row[*place] == held)
}

/// The slots that the row holds, as `0-3,7-8`; `-` where it holds none.
#[derive(Drop)]
pub struct Ranges<'a>(pub &'a [bool]);

impl fmt::Display for Ranges<'_> {
    ghost output = { λ slots. Some (ranges (runs slots.0.now)) };

    fn fmt<W: fmt::Write>(&self, f: &mut fmt::Formatter<W>) -> fmt::Result {
        let runs = Runs { row: self.0, at: 0 };
        write_parted(f, runs, "-")
    }
}
