//! What the user asks for, read from the program's arguments.
ghost use Rattle.std.specs.Prelude.{◌≡◌, map, drop, string_bytes, MatchResult, ◌≢◌};
ghost use Rattle.std.specs.List.{AllByRecursion};
ghost use Rattle.report.specs.declared.descriptions.Description.{Description};
ghost use Rattle.report.specs.declared.misuses.Misuse.TheVariants.{NoMemory};
ghost use Rattle.report.specs.Requests.{pair_words, ShortPair, Asks, AskNothing, FabricTo, TurnedAway};
ghost use Rattle.report.specs.Words.{all_of};

use crate::descriptions::{Description, read_description};
use crate::misuses::Misuse;
use crate::options::read_modules;
use crate::words::Words;
use fabric::modules::Module;
use fabric::pairs::Pair;
use std::alloc::Global;

/// The pairs to report on, and the fabric: what it is without its modules, and the modules, the lowest first.
#[derive(PartialEq, Eq, Debug, Drop)]
pub struct Request {
    pub modules: Vec<Module>,
    pub description: Description,
    pub pairs: Vec<Pair>,
}

// The pairs that the words left spell, after the fabric: source, destination, source, and so on.
fn read_pairs(heap: Global, words: &mut Words) -> Result<Vec<Pair>, Misuse>
    requires { (d : Description) × FabricTo (all_of words.old) d words.old.at }
    ensures { MatchResult result (λ ps. AllByRecursion ShortPair ps.items × (drop words.old.at (all_of words.old) ≡ pair_words ps.items)) (TurnedAway (all_of words.old)) }
{
    let mut pairs = Vec::new(heap);
    while let Some(word) = words.next() {
        let source = word.number()?;
        let destination = words.next().ok_or(Misuse::Unpaired)?.number()?;
        pairs.push(Pair {
            source,
            destination,
        })?;
    }
    Ok(pairs)
}

/// The request that the words spell: the options, the fabric in two words, and the pairs.
/// Words that ask for nothing are turned away for the first thing that is wrong with them.
pub fn read_request(heap: Global, words: &[String]) -> Result<Request, Misuse>
    ensures { MatchResult result (λ request. Asks (map string_bytes words.now) request.modules.items request.description request.pairs.items) (λ misuse. TurnedAway (map string_bytes words.now) misuse × ((misuse ≢ NoMemory) → AskNothing (map string_bytes words.now))) }
{
    let mut words = Words::new(words);
    let modules = read_modules(heap, &mut words)?;
    let description = read_description(heap, &mut words)?;
    let pairs = read_pairs(heap, &mut words)?;
    if pairs.is_empty() && description.wants_pairs() {
        return Err(Misuse::Unpaired);
    }
    Ok(Request {
        modules,
        description,
        pairs,
    })
}
