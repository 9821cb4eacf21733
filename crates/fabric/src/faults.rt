//! Why a fabric's description is refused.
ghost use Rattle.std.specs.Prelude.{◌≡◌, Some};
ghost use Rattle.fabric.specs.Faults.{numbered, fault_text};

use std::fmt;

#[derive(Clone, Copy, PartialEq, Eq, Debug)]
pub enum FabricFault {
    /// 2: a description outside its limits.
    OutsideLimits,
    /// 3: a route list that breaks its layout, first in the field that begins at this place.
    BadList { place: usize },
    /// 18: a module that does not fit the fabric below.
    Misfit,
}

impl FabricFault {
    /// The number by which the refusal is known.
    pub fn number(self) -> u8
        ensures { result ≡ (numbered self).0 }
    {
        match self {
            FabricFault::OutsideLimits => 2,
            FabricFault::BadList { .. } => 3,
            FabricFault::Misfit => 18,
        }
    }
}

/// `no`, the number and its values, as the programs print it. By hand, since no derive states `output`.
impl fmt::Display for FabricFault {
    ghost output = { λ fault. Some (fault_text fault) };

    fn fmt<W: fmt::Write>(&self, f: &mut fmt::Formatter<W>) -> fmt::Result {
        let number = self.number();
        match *self {
            FabricFault::BadList { place } => write!(f, "no {number} {place}"),
            FabricFault::OutsideLimits | FabricFault::Misfit => write!(f, "no {number}"),
        }
    }
}
