//! Stream numbers, by which the handset calls its flows.
ghost use Rattle.std.specs.Prelude.{◌==◌};
ghost use Rattle.std.proofs.Common.{rules};

use crate::Label;

/// A stream number: 0 to 65,535, any of them.
#[derive(Clone, Copy, PartialEq, Eq, Debug)]
pub struct StreamNumber(pub u16);

impl Label for StreamNumber {
    ghost same = { λ stream other. (stream.0 == other.0) };

    ghost reflexive = { Prim.search rules };

    ghost symmetric = { Prim.search rules };

    ghost transitive = { Prim.search rules };

    fn is_same(&self, other: &StreamNumber) -> bool {
        self == other
    }
}
