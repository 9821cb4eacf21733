//! How the words of a line are marked, and handed out by their marks.
ghost use Rattle.std.specs.Prelude.{◌≡◌, ℕ, List, [], ◌∷◌, ◌++◌, MatchOption};
ghost use Rattle.std.specs.List.{AllByRecursion};
ghost use Rattle.script.specs.Marks.{Stands, Past, Marked};
ghost use Rattle.script.specs.Words.{IsWord, OfKind, parts, word_bytes, word_kind};

use crate::marks::{Beyond, Mark, Marks};
use crate::words::{Kind, Word, kind_of};
use arrayvec::ArrayVec;

/// The word that stands at the mark; none where the line has no word of that kind there.
pub(crate) fn word_at<'a>(line: &'a [u8], mark: Mark) -> Option<Word<'a>>
    ensures { MatchOption result
        ((word : List ℕ) → Stands line.now mark word → ⊥)
        (λ word. Stands line.now mark (word_bytes word) × (word_kind word ≡ mark.kind)) }
{
    Word::new(line.get(mark.from..mark.to)?, mark.kind)
}

impl Beyond {
    // A name keeps the line from being a tree, whatever numbers stand beside it.
    fn and(self, kind: Kind) -> Beyond
        ensures { (words : List (List ℕ)) (word : List ℕ) → Past self words → OfKind kind word → Past result (words ++ word ∷ []) }
    {
        match kind {
            Kind::Name => Beyond::Names,
            Kind::Number => match self {
                Beyond::Nothing | Beyond::Numbers => Beyond::Numbers,
                Beyond::Names => Beyond::Names,
            },
        }
    }
}

impl Marks {
    /// Those of a line whose words are still to be read.
    pub(crate) fn new() -> Marks
        ensures { (line : List ℕ) → Marked line result [] }
    {
        Marks {
            first: ArrayVec::new(),
            beyond: Beyond::Nothing,
        }
    }

    // Past the first 128 words no mark is kept, only what a form can still be told by. The line is the caller's to name: a mark
    // refers to none.
    fn push(&mut self, mark: Mark)
        ensures { (line : List ℕ) (words : List (List ℕ)) (word : List ℕ) → Marked line self.old words → Stands line mark word → Marked line self.new (words ++ word ∷ []) }
    {
        if self.first.try_push(mark).is_err() {
            self.beyond = self.beyond.and(mark.kind);
        }
    }

    /// The marks of the words, of the first 128.
    pub(crate) fn as_slice(&self) -> &[Mark]
        ensures { result.now ≡ self.now.first.items }
    {
        &self.first
    }

    /// What the line has past those.
    pub(crate) fn beyond(&self) -> Beyond
        ensures { result ≡ self.now.beyond }
    {
        self.beyond
    }
}

/// Marks the line's words; none where a part between its spaces is no word.
// The marks are lent: handed out in an option, their three kilobytes would be cleared and copied anew on the way to each reader.
pub(crate) fn mark_line(line: &[u8], marks: &mut Marks) -> Option<()>
    requires { Marked line.now marks.old [] }
    ensures { MatchOption result
        (AllByRecursion IsWord (parts line.now) → ⊥)
        (λ done. Marked line.now marks.new (parts line.now)) }
{
    let mut from = 0;
    for part in line.split(|byte| *byte == b' ') {
        let to = from + part.len();
        marks.push(Mark {
            kind: kind_of(part)?,
            from,
            to,
        });
        from = to + 1;
    }
    Some(())
}
