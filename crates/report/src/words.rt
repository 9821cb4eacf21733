//! The words of the program's arguments, read one after the other.
ghost use Rattle.std.specs.Prelude.{◌≡◌, ◌≢◌, ◌⊎◌, ◌<◌, ◌-◌, map, length, string_bytes, decimal, Some, MatchOption, MatchResult};
ghost use Rattle.std.specs.Iterator.{at_most};
ghost use Rattle.report.specs.declared.misuses.Misuse.TheVariants.{NotANumber, NotNumbers, NoMemory};
ghost use Rattle.report.specs.Spelled.{commas, Numbers, IsNumber, IsNumbers};
ghost use Rattle.report.specs.Words.{all_of, next_of, Takes};

use crate::commas::read_commas;
use crate::misuses::Misuse;
use decimals::parse_number;
use std::alloc::Global;

// A word, and its place among the arguments.
#[derive(Clone, Copy)]
pub(crate) struct Word<'a> {
    pub(crate) place: usize,
    pub(crate) text: &'a str,
}

impl Word<'_> {
    // The number that the word spells.
    pub(crate) fn number(self) -> Result<u16, Misuse>
        ensures { MatchResult result (λ n. self.entry.text.now ≡ decimal n) (λ e. (e ≡ NotANumber self.entry.place) × (IsNumber self.entry.text.now → ⊥)) }
    {
        parse_number(self.text).ok_or(Misuse::NotANumber(self.place))
    }

    // The numbers that the word spells, parted by commas.
    pub(crate) fn numbers(self, heap: Global) -> Result<Vec<u16>, Misuse>
        ensures { MatchResult result (λ ns. Numbers ns.items × (self.entry.text.now ≡ commas ns.items)) (λ e. (e ≡ NoMemory) ⊎ ((e ≡ NotNumbers self.entry.place) × (IsNumbers self.entry.text.now → ⊥))) }
    {
        read_commas(heap, self.text)?.ok_or(Misuse::NotNumbers(self.place))
    }
}

// A reader of the arguments: all their words, and the place of the one that it reads next. Misuses and clauses name places, which
// a `peekable` over `enumerate` would keep to itself.
#[derive(Drop)]
pub(crate) struct Words<'a> {
    pub(crate) all: &'a [String],
    pub(crate) at: usize,
}

impl<'a> Words<'a> {
    pub(crate) fn new(all: &'a [String]) -> Words<'a>
        ensures { (all_of result ≡ map string_bytes all.now) × (result.at ≡ 0) }
    {
        Words { all, at: 0 }
    }

    // The next word if it is this one; else it is still to be read.
    pub(crate) fn next_if(&mut self, text: &str) -> Option<Word<'a>>
        ensures { MatchOption result ((self.new ≡ self.old) × (self.old.at < length (all_of self.old) → next_of self.old ≢ text.now)) (λ w. Takes self.old (Some w) self.new × (next_of self.old ≡ text.now)) }
    {
        if self.all.get(self.at)?.as_str() == text {
            self.next()
        } else {
            None
        }
    }
}

impl<'a> Iterator for Words<'a> {
    type Item = Word<'a>;

    ghost next_gives = { Takes };

    ghost remaining = { λ s. at_most (length s.all.now - s.at) };

    fn next(&mut self) -> Option<Word<'a>> {
        let text = self.all.get(self.at)?.as_str();
        let place = self.at;
        self.at += 1;
        Some(Word { place, text })
    }
}
