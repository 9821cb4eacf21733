//! The fabric that the user describes.
ghost use Rattle.std.specs.Prelude.{◌≡◌, ◌+◌, List, codes, MatchResult, ◌≢◌};
ghost use Rattle.fabric.specs.declared.modules.Module.{Module};
ghost use Rattle.report.specs.Requests.{wants_pairs, OptionsTo, FabricTo, TurnedAway};
ghost use Rattle.report.specs.Words.{all_of, next_of};

use crate::misuses::Misuse;
use crate::words::Words;
use std::alloc::Global;

/// A fabric, as the user describes it.
#[derive(PartialEq, Eq, Debug, Drop)]
pub enum Description {
    /// A line of so many terminals.
    Line(u16),
    /// A tree, by the parents of its terminals 1, 2 and so on.
    Tree(Vec<u16>),
    /// The file that holds a route list.
    List(String),
}

impl Description {
    // Whether the user must ask for a pair.
    pub(crate) fn wants_pairs(&self) -> bool
        ensures { result ≡ wants_pairs self.now }
    {
        matches!(self, Description::Line(_) | Description::Tree(_))
    }
}

// The fabric that the next two words describe, after the options.
pub(crate) fn read_description(heap: Global, words: &mut Words) -> Result<Description, Misuse>
    requires { ((ms : List Module) × OptionsTo (all_of words.old) ms words.old.at) × (next_of words.old ≢ codes "--spur") }
    ensures same { all_of words.new ≡ all_of words.old }
    ensures read { MatchResult result (λ d. (words.new.at ≡ words.old.at + 2) × FabricTo (all_of words.old) d words.new.at) (TurnedAway (all_of words.old)) }
{
    let name = words.next().ok_or(Misuse::UnknownFabric)?;
    let description = words.next().ok_or(Misuse::NoDescription);
    match name.text {
        "line" => Ok(Description::Line(description?.number()?)),
        "tree" => Ok(Description::Tree(description?.numbers(heap)?)),
        "list" => Ok(Description::List(String::from_str(heap, description?.text)?)),
        _ => Err(Misuse::UnknownFabric),
    }
}
