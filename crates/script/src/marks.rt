//! Marks: where the words of a line stand. The types stand alone: definitions that contracts cite name them.
use crate::words::Kind;
use arrayvec::ArrayVec;

mod marking;

pub(crate) use marking::{mark_line, word_at};

/// Where a word stands in its line, from its first byte up to the byte after its last, and of what kind it is; `word_at` hands
/// out the word.
// Places and no references, by a rule of the project: a line's words are first marked, by kind and place, and a mark refers to
// nothing. So marks are plain values in fixed memory, copied freely and tied to no line.
#[derive(Clone, Copy, PartialEq, Eq, Debug, Default)]
pub(crate) struct Mark {
    pub(crate) kind: Kind,
    pub(crate) from: usize,
    pub(crate) to: usize,
}

/// What a line has past its first 128 words, of which no mark is kept.
#[derive(Clone, Copy, PartialEq, Eq, Debug)]
pub(crate) enum Beyond {
    Nothing,
    Numbers,
    /// Names, perhaps with numbers among them.
    Names,
}

/// The marks of a line's words, of the first 128. Only a tree with too many parents has more.
#[derive(Drop)]
pub(crate) struct Marks {
    first: ArrayVec<Mark, 128>,
    beyond: Beyond,
}
