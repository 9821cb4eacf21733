//! The links that routes cross, listed.
ghost use Rattle.std.specs.Prelude.{IfOk};
ghost use Rattle.fabric.specs.Overlaps.{Shared};
ghost use Rattle.report.specs.Links.{Ascending};

use fabric::Fabric;
use fabric::overlaps::shared;
use fabric::pairs::Pair;
use std::alloc::{AllocError, Global};

/// The links that the routes of both pairs cross, ascending. Of a pair and itself, the links of its route.
pub fn shared_links<F: Fabric>(
    heap: Global,
    fabric: &F,
    one: Pair,
    other: Pair,
) -> Result<Vec<u16>, AllocError>
    ensures { IfOk result (λ links. Ascending (Shared (F.Fabric.meaning fabric.now) one other) links.items) }
{
    (0..fabric.links())
        .filter(|link| shared(fabric, one, other, *link))
        .collect(heap)
}
