//! The lines of a report.
ghost use Rattle.std.specs.Prelude.{IfOk, Some, string_bytes, MatchOption};
ghost use Rattle.fabric.specs.Overlaps.{Overlap};
ghost use Rattle.report.specs.Lines.{RouteLine, OverlapLine, list_line};

use crate::commas::Commas;
use crate::links::shared_links;
use fabric::Fabric;
use fabric::pairs::Pair;
use fabric::route_checks::ListSummary;
use std::alloc::{AllocError, Global};
use std::fmt;

/// The line of a pair: the links of its route, or that there is none.
pub fn route_line<F: Fabric>(heap: Global, fabric: &F, pair: Pair) -> Result<String, AllocError>
    ensures { IfOk result (λ line. RouteLine (F.Fabric.meaning fabric.now) pair (string_bytes line)) }
{
    // the two ends as the report spells them; a type for that text round a pair would read no plainer
    if !fabric.routed(pair) {
        return format!(in heap; "{}->{} has no route", pair.source, pair.destination);
    }
    let links = shared_links(heap, fabric, pair, pair)?;
    let list = Commas(links.as_slice());
    format!(in heap; "{}->{} crosses {list}", pair.source, pair.destination)
}

/// The line of two pairs whose routes overlap: the links that both cross. None where they do not.
pub fn overlap_line<F: Fabric>(
    heap: Global,
    fabric: &F,
    one: Pair,
    other: Pair,
) -> Result<Option<String>, AllocError>
    ensures { IfOk result (λ found. MatchOption found (Overlap (F.Fabric.meaning fabric.now) one other → ⊥) (λ line. Overlap (F.Fabric.meaning fabric.now) one other × OverlapLine (F.Fabric.meaning fabric.now) one other (string_bytes line))) }
{
    let links = shared_links(heap, fabric, one, other)?;
    if links.is_empty() {
        return Ok(None);
    }
    let list = Commas(links.as_slice());
    let line = format!(in heap;
        "{}->{} and {}->{} share {list}",
        one.source, one.destination, other.source, other.destination
    )?;
    Ok(Some(line))
}

/// The line of an accepted route list: how many terminals, links and routes it has.
#[derive(Clone, Copy, PartialEq, Eq, Debug)]
pub struct ListLine(pub ListSummary);

impl fmt::Display for ListLine {
    ghost output = { λ line. Some (list_line line.0) };

    fn fmt<W: fmt::Write>(&self, f: &mut fmt::Formatter<W>) -> fmt::Result {
        write!(
            f,
            "ok {} {} {}",
            self.0.terminals, self.0.links, self.0.routes
        )
    }
}
