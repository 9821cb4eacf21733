//! Finding the route of a pair in the bytes of a route list.
ghost use Rattle.std.specs.Prelude.{◌≡◌, ◌≤◌, length};
ghost use Rattle.std.specs.Iterator.{YieldsFirstBy, item_count};
ghost use Rattle.std.specs.Option.{option_map};
ghost use Rattle.fabric.specs.RouteReading.{routes_from, end_from, first_routes, first_end, links_of};

use crate::pairs::Pair;

/// Where the first route of a list begins.
pub(crate) const ROUTES_AT: usize = 7;

/// A route as it is read: its pair, and its links as a part of the list's bytes.
#[derive(Clone, Copy)]
struct RouteRead<'a> {
    pair: Pair,
    links: &'a [u8],
}

/// The routes that are left to read, so many, and the bytes from the first of them on, which have all of it.
#[derive(Drop)]
struct RoutesLeft<'a> {
    rest: &'a [u8],
    left: u8,
    ghost whole: { end_from rest.now left 0 ≤ length rest.now },
}

impl<'a> Iterator for RoutesLeft<'a> {
    type Item = RouteRead<'a>;

    ghost next_gives = { YieldsFirstBy
        (λ r. record { source = r.pair.source; destination = r.pair.destination; links = r.links.now })
        (λ s. routes_from s.rest.now s.left 0) };

    ghost remaining = { item_count (λ s. routes_from s.rest.now s.left 0) };

    fn next(&mut self) -> Option<RouteRead<'a>> {
        let left = self.left.checked_sub(1)?;
        let (head, rest) = self.rest.split_at(3);
        let (links, rest) = rest.split_at(usize::from(head[2]));
        *self = RoutesLeft { rest, left };
        let pair = Pair {
            source: u16::from(head[0]),
            destination: u16::from(head[1]),
        };
        Some(RouteRead { pair, links })
    }
}

/// The links of the pair's route, if one of the first `routes` routes is its.
pub(crate) fn find(bytes: &[u8], routes: u8, pair: Pair) -> Option<&[u8]>
    requires { first_end bytes.now routes ≤ length bytes.now }
    ensures { option_map (λ links. links.now) result ≡ links_of (first_routes bytes.now routes) pair }
{
    let mut routes = RoutesLeft {
        rest: &bytes[ROUTES_AT..],
        left: routes,
    };
    routes
        .find(|route| route.pair == pair)
        .map(|route| route.links)
}
