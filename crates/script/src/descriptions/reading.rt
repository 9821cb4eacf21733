//! How the description of a fabric is read.
ghost use Rattle.std.specs.Prelude.{◌≡◌, ℕ, ◌≤◌, List, ◌∷◌, length, MatchOption};
ghost use Rattle.script.specs.Marks.{After};
ghost use Rattle.script.specs.Descriptions.{held, Described, IsDescription};
ghost use Rattle.script.specs.Verbs.{verb_word};

use crate::arguments::{argument_at, sole, verb_first};
use crate::descriptions::{Description, Parents};
use crate::marks::{Beyond, Mark, Marks, mark_line};
use crate::verbs::Verb;

impl Parents {
    /// The parents of terminals 1, 2 and so on.
    pub fn as_slice(&self) -> &[u16]
        ensures { result.now ≡ held self.now }
    {
        &self.room[0..self.count]
    }
}

// The tree whose parents are the arguments, with those past the marks.
fn read_tree(line: &[u8], arguments: &[Mark], beyond: Beyond) -> Option<Description>
    requires { length arguments.now ≤ 127 }
    ensures { MatchOption result
        ((words : List (List ℕ)) → After line.now arguments.now beyond words → (tree : Description) → Described tree (verb_word Verb.Tree ∷ words) → ⊥)
        (λ tree. (words : List (List ℕ)) → After line.now arguments.now beyond words → Described tree (verb_word Verb.Tree ∷ words)) }
{
    let mut room = [0; 127];
    // `room.iter_mut().zip(arguments)` was tried: what it wrote is not known to a proof, neither in the loop nor after it
    for (at, mark) in arguments.iter().enumerate() {
        room[at] = argument_at(line, *mark)?;
    }
    let count = arguments.len();
    match beyond {
        Beyond::Nothing => Some(Description::Tree(Parents { room, count })),
        Beyond::Numbers => Some(Description::LongTree),
        Beyond::Names => None,
    }
}

// The fabric of a verb with its arguments.
fn read_fabric(line: &[u8], verb: Verb, arguments: &[Mark], beyond: Beyond) -> Option<Description>
    requires { length arguments.now ≤ 127 }
    ensures { MatchOption result
        ((words : List (List ℕ)) → After line.now arguments.now beyond words → (fabric : Description) → Described fabric (verb_word verb ∷ words) → ⊥)
        (λ fabric. (words : List (List ℕ)) → After line.now arguments.now beyond words → Described fabric (verb_word verb ∷ words)) }
{
    match verb {
        Verb::Line => Some(Description::Line(sole(line, arguments)?)),
        Verb::Tree => read_tree(line, arguments, beyond),
        _ => None,
    }
}

/// The fabric that the line describes; none where it describes none.
pub fn read_description(line: &[u8]) -> Option<Description>
    ensures { MatchOption result
        ((fabric : Description) → IsDescription line.now fabric → ⊥)
        (IsDescription line.now) }
{
    let mut marks = Marks::new();
    mark_line(line, &mut marks)?;
    let (verb, arguments) = verb_first(line, marks.as_slice())?;
    read_fabric(line, verb, arguments, marks.beyond())
}
