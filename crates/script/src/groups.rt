//! A group of flows, as an answer tells it: their numbers, ascending, with commas between them.
ghost use Rattle.std.specs.Prelude.{Some};
ghost use Rattle.script.specs.Groups.{members, commas};

use crate::lists::write_parted;
use std::fmt;

/// The flows that the row holds, as `1,2,4`; nothing where it holds none.
#[derive(Drop)]
pub struct Group<'a>(pub &'a [bool]);

impl fmt::Display for Group<'_> {
    ghost output = { λ group. Some (commas (members group.0.now)) };

    fn fmt<W: fmt::Write>(&self, f: &mut fmt::Formatter<W>) -> fmt::Result {
        let row = self.0.iter().enumerate();
        let members = row.filter_map(|(number, held)| held.then_some(number));
        write_parted(f, members, "")
    }
}
