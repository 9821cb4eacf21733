//! Numbers parted by commas.
ghost use Rattle.std.specs.Prelude.{◌≡◌, IfOk, Some, MatchOption};
ghost use Rattle.report.specs.Spelled.{commas, Numbers, IsNumbers};

use decimals::parse_number;
use std::alloc::{AllocError, Global};
use std::fmt;

/// A list of numbers that is shown with commas between them.
// The script's lists are written by a function over any iterator, which asks that the iterator ends. Shared by two crates it
// would be public, and no public function asks anything of its caller.
#[derive(Clone, Copy, Debug)]
pub struct Commas<'a>(pub &'a [u16]);

impl fmt::Display for Commas<'_> {
    ghost output = { λ list. Some (commas list.0.now) };

    fn fmt<W: fmt::Write>(&self, f: &mut fmt::Formatter<W>) -> fmt::Result {
        if let [first, rest @ ..] = self.0 {
            write!(f, "{first}")?;
            for n in rest {
                write!(f, ",{n}")?;
            }
        }
        Ok(())
    }
}

/// The numbers that a word spells, parted by commas, one or more; each as `parse_number` reads it.
pub fn read_commas(heap: Global, word: &str) -> Result<Option<Vec<u16>>, AllocError>
    ensures { IfOk result (λ found. MatchOption found (IsNumbers word.now → ⊥) (λ ns. Numbers ns.items × (word.now ≡ commas ns.items))) }
{
    // a loop, since `collect` would have no way to tell a part that is no number from no memory
    let mut numbers = Vec::new(heap);
    for part in word.split(',') {
        let Some(n) = parse_number(part) else {
            return Ok(None);
        };
        numbers.push(n)?;
    }
    Ok(Some(numbers))
}
