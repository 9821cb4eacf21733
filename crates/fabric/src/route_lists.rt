//! The route list: a fabric read from the caller's bytes.
ghost use Rattle.std.specs.Prelude.{◌≡◌};
ghost use Rattle.std.specs.Option.{option_map};
ghost use Rattle.fabric.specs.RouteLists.{Listing, Lawful, Accepted, among, encode, listed, bare};
ghost use Rattle.fabric.specs.RouteReading.{bytes_meaning, decoded, links_of};
ghost use Rattle.fabric.specs.RouteLaws.{list_keeps};
ghost use Rattle.fabric.specs.RouteKept.{kept_lawful};

use crate::Fabric;
use crate::pairs::Pair;
use crate::route_checks::check;
use crate::route_scans::find;

/// The list of two terminals, one link and no route.
static BARE: [u8; 7] = [0, 5, 1, 2, 0, 1, 0];

/// A fabric whose routes are written in bytes that the caller keeps. Nothing is copied out of them: each question
/// reads them anew, up to the route that it asks for.
#[derive(Drop)]
pub struct RouteList<'a> {
    bytes: &'a [u8],
    ghost kept: { ∥ Accepted bytes.now ∥₁ },
}

impl<'a> RouteList<'a> {
    /// The fabric that the bytes describe; of bytes that `check` refuses, one of two terminals, one link and
    /// no route.
    pub fn new(bytes: &'a [u8]) -> RouteList<'a>
        ensures accepted { (v : Listing) → Lawful v → encode v ≡ bytes.now → bytes_meaning result.bytes.now ≡ listed v }
        ensures refused { (Accepted bytes.now → ⊥) → bytes_meaning result.bytes.now ≡ listed bare }
    {
        let Ok(_) = check(bytes) else {
            return RouteList { bytes: &BARE };
        };
        RouteList { bytes }
    }

    // The links of the pair's route, if it has one.
    fn route(&self, pair: Pair) -> Option<&[u8]>
        ensures { option_map (λ links. links.now) result ≡ links_of (decoded self.now.bytes.now).routes pair }
    {
        find(self.bytes, self.bytes[6], pair)
    }
}

impl Fabric for RouteList<'_> {
    ghost meaning = { λ list. bytes_meaning list.bytes.now };

    ghost keeps = { λ list. list_keeps (decoded list.bytes.now) (kept_lawful list.bytes.now list.kept) };

    fn terminals(&self) -> u16 {
        u16::from(self.bytes[3])
    }

    fn links(&self) -> u16 {
        u16::from_be_bytes([self.bytes[4], self.bytes[5]])
    }

    fn routed(&self, pair: Pair) -> bool {
        self.route(pair).is_some()
    }

    fn crosses(&self, pair: Pair, link: u16) -> bool {
        self.route(pair).is_some_and(|links| names(links, link))
    }
}

// Whether the link is among those that the bytes name. It counts as crossed if one of these bytes equals it, and by a rule
// of the project that is told by a loop over the bytes of the part.
fn names(links: &[u8], link: u16) -> bool
    ensures { result ≡ among link links.now }
{
    for byte in links {
        if u16::from(*byte) == link {
            return true;
        }
    }
    false
}
