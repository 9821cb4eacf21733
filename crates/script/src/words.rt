//! The words of a script: names and numbers.
ghost use Rattle.std.specs.Prelude.{◌≡◌, MatchOption};
ghost use Rattle.script.specs.Words.{IsWord, OfKind, word_bytes, word_kind};

use decimals::read_number;
use labels::names::Name;

/// What a word is.
#[derive(Clone, Copy, PartialEq, Eq, Debug, Default)]
pub(crate) enum Kind {
    // which kind is the default says nothing: `ArrayVec::new` wants one, for the places of its room that are not used
    #[default]
    Name,
    Number,
}

/// A word: a name, which is a part of the script, or a number.
#[derive(Clone, Copy, PartialEq, Eq, Debug)]
pub(crate) enum Word<'a> {
    Name(&'a [u8]),
    Number(u16),
}

impl<'a> Word<'a> {
    /// The word of the kind that the bytes spell; none where they spell none of that kind.
    pub(crate) fn new(bytes: &'a [u8], kind: Kind) -> Option<Word<'a>>
        ensures { MatchOption result (OfKind kind bytes.now → ⊥) (λ word. OfKind kind bytes.now × (word_kind word ≡ kind) × (word_bytes word ≡ bytes.now)) }
    {
        match kind {
            Kind::Name => Name::new(bytes).map(|_| Word::Name(bytes)),
            Kind::Number => Some(Word::Number(read_number(bytes)?)),
        }
    }
}

/// The kind of the word that the bytes spell; none where they spell no word.
pub(crate) fn kind_of(bytes: &[u8]) -> Option<Kind>
    ensures { MatchOption result (IsWord bytes.now → ⊥) (λ kind. OfKind kind bytes.now) }
{
    if Name::new(bytes).is_some() {
        return Some(Kind::Name);
    }
    read_number(bytes).map(|_| Kind::Number)
}
