//! The commands of a script.
ghost use Rattle.std.specs.Prelude.{◌≡◌, ℕ, List, [], MatchOption};
ghost use Rattle.script.specs.Commands.{command_words, ShortCommand, IsCommand};
ghost use Rattle.script.specs.Marks.{Stand};
ghost use Rattle.script.specs.Verbs.{Follows};

use crate::arguments::{read_wanted, sole, verb_first};
use crate::marks::{Mark, Marks, mark_line};
use crate::verbs::Verb;
use labels::names::Name;

/// A flow, as a command wants it: its name and number, its ends, and how many slots it needs.
#[derive(Clone, Copy, PartialEq, Eq, Debug)]
pub struct Wanted {
    pub name: Name,
    pub number: u16,
    pub source: u16,
    pub destination: u16,
    pub demand: u16,
}

/// What a line of a script asks for, once the fabric and the period are known.
#[derive(Clone, Copy, PartialEq, Eq, Debug)]
pub enum Command {
    Enrol(Wanted),
    Admit(Wanted),
    /// The flow of this name.
    Withdraw(Name),
    Replan,
    Start,
    Rest,
    Show,
}

// The command, where no word stands after its verb.
fn alone(command: Command, arguments: &[Mark]) -> Option<Command>
    ensures { MatchOption result
        ((line : List ℕ) → Stand line arguments.now [] → ⊥)
        (λ found. (found ≡ command) × ((line : List ℕ) → Stand line arguments.now [])) }
{
    arguments.is_empty().then_some(command)
}

// The command of a verb with its arguments.
fn read_arguments(line: &[u8], verb: Verb, arguments: &[Mark]) -> Option<Command>
    ensures { MatchOption result
        ((command : Command) → ShortCommand command → Follows line.now verb arguments.now (command_words command) → ⊥)
        (λ command. ShortCommand command × Follows line.now verb arguments.now (command_words command)) }
{
    match verb {
        Verb::Enrol => read_wanted(line, arguments).map(Command::Enrol),
        Verb::Admit => read_wanted(line, arguments).map(Command::Admit),
        Verb::Withdraw => sole(line, arguments).map(Command::Withdraw),
        Verb::Replan => alone(Command::Replan, arguments),
        Verb::Start => alone(Command::Start, arguments),
        Verb::Rest => alone(Command::Rest, arguments),
        Verb::Show => alone(Command::Show, arguments),
        Verb::Line | Verb::Tree | Verb::Open => None,
    }
}

/// The command that the line spells; none where it spells none.
pub fn read_command(line: &[u8]) -> Option<Command>
    ensures { MatchOption result
        ((command : Command) → IsCommand line.now command → ⊥)
        (IsCommand line.now) }
{
    let mut marks = Marks::new();
    mark_line(line, &mut marks)?;
    let (verb, arguments) = verb_first(line, marks.as_slice())?;
    read_arguments(line, verb, arguments)
}
