//! The check of a route list: whether its bytes keep the layout, and if not, where they first break it.
ghost use Rattle.std.specs.Prelude.{◌≡◌, ℕ, ◌+◌, ◌<◌, ◌≤◌, [], ◌∷◌, length, take, nat_lt, MatchResult, slice_index};
ghost use Rattle.std.specs.List.{prefix_len};
ghost use Rattle.fabric.specs.Faults.{numbered};
ghost use Rattle.fabric.specs.RouteLists.{Accepted, AcceptedWith};
ghost use Rattle.fabric.specs.RouteReading.{first_routes, first_end};
ghost use Rattle.fabric.specs.RouteRefusals.{Kept, RefusedBy, Settled, stated_terminals, stated_links};
ghost use Rattle.fabric.specs.RouteChecking.{HeaderRead, HeaderBroken, RouteBroken};

use crate::faults::FabricFault;
use crate::pairs::Pair;
use crate::route_scans::{ROUTES_AT, find};

/// What a list's header states.
#[derive(Clone, Copy, PartialEq, Eq, Debug)]
pub struct ListSummary {
    pub terminals: u16,
    pub links: u16,
    pub routes: u8,
}

/// The seven bytes before the routes, checked field by field.
fn check_header(bytes: &[u8]) -> Result<ListSummary, FabricFault>
    ensures { MatchResult result (λ s. HeaderRead bytes.now s.terminals s.links s.routes) (λ fault. HeaderBroken bytes.now fault) }
{
    if bytes.len() < ROUTES_AT
        || usize::from(u16::from_be_bytes([bytes[0], bytes[1]])) != bytes.len() - 2
    {
        return Err(FabricFault::BadList { place: 0 });
    }
    if bytes[2] != 1 {
        return Err(FabricFault::BadList { place: 2 });
    }
    let terminals = u16::from(bytes[3]);
    if !(2..=128).contains(&terminals) {
        return Err(FabricFault::BadList { place: 3 });
    }
    let links = u16::from_be_bytes([bytes[4], bytes[5]]);
    if !(1..=256).contains(&links) {
        return Err(FabricFault::BadList { place: 4 });
    }
    Ok(ListSummary {
        terminals,
        links,
        routes: bytes[6],
    })
}

/// The byte at a place; a field past the end is refused where the bytes end.
fn byte_at(bytes: &[u8], place: usize) -> Result<u8, FabricFault>
    ensures { MatchResult result (λ b. (place < length bytes.now) × (b ≡ slice_index bytes.now place)) (λ fault. (length bytes.now ≤ place) × (numbered fault ≡ (3, place ∷ []))) }
{
    bytes
        .get(place)
        .copied()
        .ok_or(FabricFault::BadList { place })
}

/// How far a list was read: its bytes, what its header states, how many routes were passed, and the place where they
/// end and the next one begins.
#[derive(Clone, Copy)]
struct Reading<'a> {
    bytes: &'a [u8],
    summary: ListSummary,
    passed: u8,
    at: usize,
    ghost terminals_are: { summary.terminals ≡ stated_terminals bytes.now },
    ghost links_are: { summary.links ≡ stated_links bytes.now },
    ghost at_end: { at ≡ first_end bytes.now passed },
    ghost within: { at ≤ length bytes.now },
}

impl<'a> Reading<'a> {
    /// The two ends of the next route.
    fn check_ends(&self) -> Result<(), FabricFault>
        ensures { MatchResult result
            (λ _. (k : ℕ) → k < 2 → Kept self.now.bytes.now (first_routes self.now.bytes.now self.now.passed) self.now.at k)
            (λ fault. RouteBroken self.now.bytes.now (first_routes self.now.bytes.now self.now.passed) self.now.at fault) }
    {
        let source = u16::from(byte_at(self.bytes, self.at)?);
        if source >= self.summary.terminals {
            return Err(FabricFault::BadList { place: self.at });
        }
        let place = self.at + 1;
        let destination = u16::from(byte_at(self.bytes, place)?);
        let pair = Pair {
            source,
            destination,
        };
        if !pair.two_of(self.summary.terminals) || find(self.bytes, self.passed, pair).is_some() {
            return Err(FabricFault::BadList { place });
        }
        Ok(())
    }

    /// The reading past the next route, which is checked byte by byte.
    fn pass_route(&self) -> Result<Reading<'a>, FabricFault>
        requires { self.now.passed < 255 }
        ensures { MatchResult result
            (λ next. (next.bytes ≡ self.now.bytes) × (next.summary ≡ self.now.summary) × (next.passed ≡ self.now.passed + 1)
            × ((k : ℕ) → k < 3 + slice_index self.now.bytes.now (self.now.at + 2)
            → Kept self.now.bytes.now (first_routes self.now.bytes.now self.now.passed) self.now.at k))
            (λ fault. RouteBroken self.now.bytes.now (first_routes self.now.bytes.now self.now.passed) self.now.at fault) }
    {
        self.check_ends()?;
        let count = usize::from(byte_at(self.bytes, self.at + 2)?);
        if count == 0 {
            return Err(FabricFault::BadList { place: self.at + 2 });
        }
        let from = self.at + 3;
        let kept = links_kept(&self.bytes[from..], count, self.summary.links);
        if kept < count {
            return Err(FabricFault::BadList { place: from + kept });
        }
        Ok(Reading {
            bytes: self.bytes,
            summary: self.summary,
            passed: self.passed + 1,
            at: from + count,
        })
    }
}

/// How many of so many bytes come before the first that is missing or names no link.
fn links_kept(bytes: &[u8], count: usize, links: u16) -> usize
    ensures { result ≡ prefix_len (λ link. nat_lt link links) (take count bytes.now) }
{
    bytes
        .iter()
        .take(count)
        .take_while(|link| u16::from(**link) < links)
        .count()
}

/// Whether the bytes keep the layout of a route list: what its header states, or the place of the first
/// field that is missing or breaks its rule.
pub fn check(bytes: &[u8]) -> Result<ListSummary, FabricFault>
    ensures answer { MatchResult result (λ s. AcceptedWith bytes.now s.terminals s.links s.routes) (λ fault. RefusedBy bytes.now fault × (Accepted bytes.now → ⊥)) }
    ensures settled { Settled bytes.now }
{
    let summary = check_header(bytes)?;
    let mut reading = Reading {
        bytes,
        summary,
        passed: 0,
        at: ROUTES_AT,
    };
    // a loop, since the reading is handed on from route to route and no number is used; `try_fold` over the numbers is no plainer
    for _ in 0..summary.routes {
        reading = reading.pass_route()?;
    }
    if reading.at < bytes.len() {
        return Err(FabricFault::BadList { place: reading.at });
    }
    Ok(summary)
}
