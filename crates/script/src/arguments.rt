//! The words after a command's first, by their marks.
ghost use Rattle.std.specs.Prelude.{◌≡◌, ℕ, List, [], ◌∷◌, decimal, MatchOption, ◌≢◌, ⊤};
ghost use Rattle.labels.specs.Names.{spelled};
ghost use Rattle.script.specs.Commands.{wanted_words, ShortWanted};
ghost use Rattle.script.specs.Marks.{Stands, Stand};
ghost use Rattle.script.specs.Verbs.{verb_word};
ghost use Rattle.script.specs.Words.{OfKind, Short, word_bytes, word_kind};

use crate::commands::Wanted;
use crate::marks::{Mark, word_at};
use crate::verbs::Verb;
use crate::words::Word;
use labels::names::Name;

/// A value that a word can spell.
pub(crate) trait Argument: Copy {
    ghost allowed: { Self → Type 0 };

    ghost spelling: { Self → List ℕ };

    /// The value that the word spells.
    fn from_word(word: Word<'_>) -> Option<Self>
        ensures { MatchOption result
            ((value : Self) → allowed value → OfKind (word_kind word.entry) (spelling value) → word_bytes word.entry ≢ spelling value)
            (λ value. allowed value × (word_bytes word.entry ≡ spelling value)) };
}

impl Argument for Name {
    ghost allowed = { λ name. ⊤ };

    ghost spelling = { spelled };

    fn from_word(word: Word<'_>) -> Option<Name> {
        match word {
            Word::Name(bytes) => Name::new(bytes),
            Word::Number(_) => None,
        }
    }
}

impl Argument for u16 {
    ghost allowed = { Short };

    ghost spelling = { decimal };

    fn from_word(word: Word<'_>) -> Option<u16> {
        match word {
            Word::Number(number) => Some(number),
            Word::Name(_) => None,
        }
    }
}

/// The value that the word at a mark spells.
pub(crate) fn argument_at<A: Argument>(line: &[u8], mark: Mark) -> Option<A>
    ensures { MatchOption result
        ((value : A) → A.allowed value → Stands line.now mark (A.spelling value) → ⊥)
        (λ value. A.allowed value × Stands line.now mark (A.spelling value)) }
{
    A::from_word(word_at(line, mark)?)
}

/// The value of the only argument.
pub(crate) fn sole<A: Argument>(line: &[u8], arguments: &[Mark]) -> Option<A>
    ensures { MatchOption result
        ((value : A) → A.allowed value → Stand line.now arguments.now (A.spelling value ∷ []) → ⊥)
        (λ value. A.allowed value × Stand line.now arguments.now (A.spelling value ∷ [])) }
{
    match arguments {
        [mark] => argument_at(line, *mark),
        _ => None,
    }
}

/// The verb at the first mark, and the marks after it.
// By a rule of the project a slice pattern names the first mark and hands on the rest.
pub(crate) fn verb_first<'a>(line: &[u8], marks: &'a [Mark]) -> Option<(Verb, &'a [Mark])>
    ensures { MatchOption result
        ((verb : Verb) (words : List (List ℕ)) → Stand line.now marks.now (verb_word verb ∷ words) → ⊥)
        (λ found. (first : Mark) × (marks.now ≡ first ∷ found.1.now) × Stands line.now first (verb_word found.0)) }
{
    match marks {
        [first, rest @ ..] => Some((argument_at(line, *first)?, rest)),
        [] => None,
    }
}

/// The flow that the arguments want.
pub(crate) fn read_wanted(line: &[u8], arguments: &[Mark]) -> Option<Wanted>
    ensures { MatchOption result
        ((flow : Wanted) → ShortWanted flow → Stand line.now arguments.now (wanted_words flow) → ⊥)
        (λ flow. ShortWanted flow × Stand line.now arguments.now (wanted_words flow)) }
{
    let [name, number, source, destination, demand] = arguments else {
        return None;
    };
    Some(Wanted {
        name: argument_at(line, *name)?,
        number: argument_at(line, *number)?,
        source: argument_at(line, *source)?,
        destination: argument_at(line, *destination)?,
        demand: argument_at(line, *demand)?,
    })
}
