//! The description of a fabric, as a script gives it. The types stand alone: definitions that contracts cite name them.
ghost use Rattle.std.specs.Prelude.{◌≡◌, ℕ, ◌≤◌, slice_index_or};

mod reading;

pub use reading::read_description;

/// The parents of a tree's terminals 1, 2 and so on, at most 127.
#[derive(Clone, Copy, PartialEq, Eq, Debug)]
pub struct Parents {
    // an `ArrayVec` would not be `Copy`, as a description is
    room: [u16; 127],
    count: usize,
    ghost few: { count ≤ 127 },
    // so that the same parents are kept in one way only, and compared as a whole
    ghost unused: { (k : ℕ) → count ≤ k → slice_index_or room k 0 ≡ 0 },
}

/// The fabric of a session.
#[derive(Clone, Copy, PartialEq, Eq, Debug)]
pub enum Description {
    /// A line of so many terminals.
    Line(u16),
    /// A tree, by the parents of its terminals.
    Tree(Parents),
    /// A tree of more than 127 parents, which no fabric has.
    LongTree,
}
