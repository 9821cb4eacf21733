//! The options: the modules that the user puts on the fabric.
ghost use Rattle.std.specs.Prelude.{◌≡◌, codes, MatchOption, MatchResult, ◌≢◌};
ghost use Rattle.report.specs.Requests.{module_word, ShortModule, IsModule, OptionsTo, TurnedAway};
ghost use Rattle.report.specs.Words.{all_of, next_of};

use crate::misuses::Misuse;
use crate::words::Words;
use decimals::parse_number;
use fabric::modules::Module;
use std::alloc::Global;

/// The module that a word spells: its port and its count, parted by a comma.
pub fn read_module(word: &str) -> Option<Module>
    ensures { MatchOption result (IsModule word.now → ⊥) (λ m. ShortModule m × (word.now ≡ module_word m)) }
{
    let (first, second) = word.split_once(',')?;
    let port = parse_number(first)?;
    let count = parse_number(second)?;
    Some(Module { port, count })
}

// The modules of the options, which come first. Each takes two words.
pub(crate) fn read_modules(heap: Global, words: &mut Words) -> Result<Vec<Module>, Misuse>
    requires { words.old.at ≡ 0 }
    ensures same { all_of words.new ≡ all_of words.old }
    ensures read { MatchResult result (λ ms. OptionsTo (all_of words.old) ms.items words.new.at × (next_of words.new ≢ codes "--spur")) (TurnedAway (all_of words.old)) }
{
    let mut modules = Vec::new(heap);
    while let Some(spur) = words.next_if("--spur") {
        let module = words
            .next()
            .and_then(|word| read_module(word.text))
            .ok_or(Misuse::NotAModule(spur.place + 1))?;
        modules.push(module)?;
    }
    Ok(modules)
}
