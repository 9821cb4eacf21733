//! How a name is made of bytes, read again and compared.
ghost use Rattle.std.specs.Prelude.{◌≡◌, ℕ, ◌<◌, Decides, MatchOption, Some, refl, slice_index};
ghost use Rattle.std.proofs.Common.{sym, ◌∙◌, rules, arith};
ghost use Rattle.std.specs.Str.{bytes_eq};
ghost use Rattle.labels.specs.Names.{spelled};
ghost use Rattle.labels.specs.Spellings.{Spelling};
ghost use Rattle.std.specs.Cmp.{partial_equiv_from_equiv};
ghost use Rattle.std.specs.Cmp.Rules.{comparing};
ghost use Rattle.std.proofs.lemmas.Slice.Eq.{bytes_eq-Decides};
ghost use Rattle.std.proofs.lemmas.Bool.Decides.{same_from_decides, Decides-like};

use crate::Label;
use crate::names::Name;
use std::{array, fmt};

// Whether the bytes are 1 to 8 letters a to z.
fn is_spelling(bytes: &[u8]) -> bool
    ensures { Decides result (Spelling bytes.now) }
{
    (1..=8).contains(&bytes.len()) && bytes.iter().all(|byte| matches!(byte, b'a'..=b'z'))
}

// The bytes, and 0 after them.
fn filled_up(bytes: &[u8]) -> [u8; 8]
    ensures { (k : ℕ) → k < 8 → slice_index result k ≡ slice_index bytes.now k }
{
    array::from_fn(|at| bytes.get(at).copied().unwrap_or(0))
}

impl Name {
    /// The name that the bytes spell; none where they are not 1 to 8 letters a to z.
    pub fn new(bytes: &[u8]) -> Option<Name>
        ensures { MatchOption result (Spelling bytes.now → ⊥) (λ name. Spelling bytes.now × (spelled name ≡ bytes.now)) }
    {
        if !is_spelling(bytes) {
            return None;
        }
        Some(Name {
            letters: filled_up(bytes),
            // no bits are lost: a spelling has at most 8 bytes
            count: bytes.len() as u8,
        })
    }

    /// The name's letters, as bytes.
    pub fn as_bytes(&self) -> &[u8]
        ensures value { result.now ≡ spelled self.now }
        ensures lawful { Spelling result.now }
    {
        &self.letters[..usize::from(self.count)]
    }
}

impl fmt::Display for Name {
    ghost output = { λ name. Some (spelled name) };

    fn fmt<W: fmt::Write>(&self, f: &mut fmt::Formatter<W>) -> fmt::Result {
        match std::str::from_utf8(self.as_bytes()) {
            Ok(letters) => f.pad(letters),
            // letters a to z are UTF-8, and every name is proved to be of these
            Err(_) => unreachable(),
        }
    }
}

// A derive would compare the letters and their count, and could not say that this is to compare the spellings.
/// Names are equal exactly when their spellings are.
impl PartialEq for Name {
    ghost eq = { λ name other. bytes_eq (spelled name) (spelled other) };

    ghost laws = { partial_equiv_from_equiv (Prim.search (comparing, rules)) };

    fn eq(&self, other: &Name) -> bool
        ensures meant { result ≡ bytes_eq (spelled self.now) (spelled other.now) }
        ensures decides { Decides result (spelled self.now ≡ spelled other.now) }
    {
        self.as_bytes() == other.as_bytes()
    }
}

impl Eq for Name {
    ghost laws = { Prim.search (comparing, rules) };
}

impl Label for Name {
    ghost same = { λ name other. bytes_eq (spelled name) (spelled other) };

    ghost reflexive = { λ a. (bytes_eq-Decides (spelled a) (spelled a)).1 refl };

    ghost symmetric = { λ a b.
        same_from_decides
        _
        _
        (bytes_eq-Decides (spelled a) (spelled b))
        (Decides-like _ sym sym (bytes_eq-Decides (spelled b) (spelled a))) };

    ghost transitive = { λ a b c p q.
        (bytes_eq-Decides (spelled a) (spelled c)).1
        ((bytes_eq-Decides (spelled a) (spelled b)).0 p ∙ (bytes_eq-Decides (spelled b) (spelled c)).0 q) };

    fn is_same(&self, other: &Name) -> bool
        ensures meant { result ≡ bytes_eq (spelled self.now) (spelled other.now) }
        ensures decides { Decides result (spelled self.now ≡ spelled other.now) }
    {
        self == other
    }
}
