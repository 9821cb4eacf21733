//! Why a call on a directory is refused.
ghost use Rattle.std.specs.Prelude.{◌≡◌};
ghost use Rattle.labels.specs.Faults.{numbered};

#[derive(Clone, Copy, PartialEq, Eq, Debug)]
pub enum LabelFault {
    /// A flow number above 63.
    NoFlow = 4,
    /// Memory that has not 64 entries.
    WrongMemory = 7,
    /// The flow's entry is bound.
    EntryBound = 11,
    /// The label is bound.
    LabelBound = 20,
    /// The label is unknown.
    LabelUnknown = 21,
}

impl LabelFault {
    /// The number by which the refusal is known.
    pub fn number(self) -> u8
        ensures { result ≡ (numbered self).0 }
    {
        self as u8
    }
}
