//! The first words of commands.
ghost use Rattle.std.specs.Prelude.{◌≡◌, MatchOption, ◌≢◌, ⊤};
ghost use Rattle.script.specs.Verbs.{verb_word};

use crate::arguments::Argument;
use crate::words::Word;

/// What a line asks for.
#[derive(Clone, Copy, PartialEq, Eq, Debug)]
pub(crate) enum Verb {
    Line,
    Tree,
    Open,
    Enrol,
    Admit,
    Withdraw,
    Replan,
    Start,
    Rest,
    Show,
}

// The verb that the word spells.
fn read_verb(word: &[u8]) -> Option<Verb>
    ensures { MatchOption result ((verb : Verb) → word.now ≢ verb_word verb) (λ verb. word.now ≡ verb_word verb) }
{
    let verb = match word {
        b"line" => Verb::Line,
        b"tree" => Verb::Tree,
        b"open" => Verb::Open,
        b"enrol" => Verb::Enrol,
        b"admit" => Verb::Admit,
        b"withdraw" => Verb::Withdraw,
        b"replan" => Verb::Replan,
        b"start" => Verb::Start,
        b"rest" => Verb::Rest,
        b"show" => Verb::Show,
        _ => return None,
    };
    Some(verb)
}

impl Argument for Verb {
    ghost allowed = { λ verb. ⊤ };

    ghost spelling = { verb_word };

    fn from_word(word: Word<'_>) -> Option<Verb> {
        match word {
            Word::Name(bytes) => read_verb(bytes),
            Word::Number(_) => None,
        }
    }
}
