//! Names, as they are kept. The struct stands alone: definitions that contracts cite name it.
ghost use Rattle.std.specs.Prelude.{◌≡◌, ℕ, ◌≤◌, take, slice_index};
ghost use Rattle.labels.specs.Spellings.{Spelling};

mod spelling;

/// A name: 1 to 8 letters a to z. It is made by `Name::new` only, so every name is one.
#[derive(Clone, Copy, Debug)]
pub struct Name {
    // `ArrayString<8>` was tried: the borrow checker then covers no copy of an array of names, as a session keeps, from behind a
    // reference, and no contract says that the unused bytes are 0; here they are, so that a spelling is kept in one way only
    letters: [u8; 8],
    count: u8,
    ghost few: { count ≤ 8 },
    ghost spells: { Spelling (take count letters) },
    ghost unused: { (k : ℕ) → count ≤ k → slice_index letters k ≡ 0 },
}
