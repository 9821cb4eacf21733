//! Overlap: two routes that cross one link may never be used in one slot.
ghost use Rattle.std.specs.Prelude.{Decides};
ghost use Rattle.fabric.specs.Overlaps.{Shared, Overlap};

use crate::Fabric;
use crate::pairs::Pair;

/// Whether the link is crossed by the routes of both pairs.
pub fn shared<F: Fabric>(fabric: &F, one: Pair, other: Pair, link: u16) -> bool
    ensures { Decides result (Shared (F.Fabric.meaning fabric.now) one other link) }
{
    fabric.crosses(one, link) && fabric.crosses(other, link)
}

/// Whether some link is crossed by the routes of both pairs.
pub fn overlap<F: Fabric>(fabric: &F, one: Pair, other: Pair) -> bool
    ensures { Decides result (Overlap (F.Fabric.meaning fabric.now) one other) }
{
    (0..fabric.links()).any(|link| shared(fabric, one, other, link))
}
