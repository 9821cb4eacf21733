//! The lines of a script.
ghost use Rattle.std.specs.Prelude.{◌≡◌, [], length, drop, MatchOption, ⊤};
ghost use Rattle.std.specs.Iterator.{at_most};
ghost use Rattle.script.specs.Lines.{FirstLine, LinesOf, NextLine, left};

use crate::cuts::cut;

/// The lines of a script that are still to come, each without the byte 10 at its end.
#[derive(Clone, Drop)]
pub struct Lines<'a> {
    rest: &'a [u8],
}

impl<'a> Lines<'a> {
    /// Those of the whole script.
    pub fn new(script: &'a [u8]) -> Lines<'a>
        ensures { left result ≡ script.now }
    {
        Lines { rest: script }
    }
}

impl<'a> Iterator for Lines<'a> {
    type Item = &'a [u8];

    ghost can_next = { λ lines. ⊤ };

    ghost next_gives = { λ lines line after. MatchOption line
        (LinesOf (left lines) [] × (left after ≡ left lines))
        (λ line. FirstLine (left lines) line.now (left after)) };

    ghost remaining = { λ lines. at_most (length (left lines)) };

    fn next(&mut self) -> Option<&'a [u8]> {
        if self.rest.is_empty() {
            return None;
        }
        let (line, rest) = cut(self.rest, b'\n');
        self.rest = rest.unwrap_or(&[]);
        Some(line)
    }
}

/// A line of a script, without the byte 10 at its end, and where the next line begins.
#[derive(Clone, Copy, PartialEq, Eq, Debug)]
pub struct Line<'a> {
    pub bytes: &'a [u8],
    pub next: usize,
}

/// The line that begins at the place; none where the script has no byte from there on.
pub fn line_at<'a>(script: &'a [u8], from: usize) -> Option<Line<'a>>
    ensures { MatchOption result
        (LinesOf (drop from script.now) [])
        (λ line. NextLine script.now from line.bytes.now line.next) }
{
    let mut lines = Lines::new(script.get(from..)?);
    let bytes = lines.next()?;
    Some(Line {
        bytes,
        next: script.len() - lines.rest.len(),
    })
}
