//! Directories: the checks in their order, what is found, and a kind of labels that only this file knows.
ghost use Rattle.std.specs.Prelude.{◌&&◌, ◌==◌, nat_eq};
ghost use Rattle.std.proofs.Common.{rules};

use crate::names::named;
use labels::Label;
use labels::directories::{bind, find, find_bound, unbind};
use labels::faults::LabelFault;
use labels::streams::StreamNumber;
use std::test::Fail;

#[test]
fn names_are_bound_and_unbound(rt: HostRuntime) -> Result<(), Fail> {
    let cam = named(b"cam")?;
    let mic = named(b"mic")?;
    let mut entries = [None; 64];
    bind(&mut entries, 63, cam)?;
    assert_eq!(rt; find(&entries, cam)?, Some(63));
    assert_eq!(rt; find(&entries, mic)?, None);
    assert_eq!(rt; find_bound(&entries, mic), Err(LabelFault::LabelUnknown));
    unbind(&mut entries, 0)?;
    assert_eq!(rt; find_bound(&entries, cam)?, 63);
    unbind(&mut entries, 63)?;
    assert_eq!(rt; find(&entries, cam)?, None);
    Ok(())
}

#[test]
fn checks_stand_in_their_order(rt: HostRuntime) -> Result<(), Fail> {
    let (one, two) = (StreamNumber(1), StreamNumber(65535));
    let mut short = [Some(one); 63];
    assert_eq!(rt; bind(&mut short, 64, one), Err(LabelFault::WrongMemory));
    assert_eq!(rt; unbind(&mut short, 64), Err(LabelFault::WrongMemory));
    assert_eq!(rt; find(&short, one), Err(LabelFault::WrongMemory));
    assert_eq!(rt; find_bound(&short, two), Err(LabelFault::WrongMemory));
    let mut entries = [None; 64];
    bind(&mut entries, 5, one)?;
    // in 8 bits these would be 7 and 5
    assert_eq!(rt; bind(&mut entries, 256 + 7, one), Err(LabelFault::NoFlow));
    assert_eq!(rt; unbind(&mut entries, 256 + 5), Err(LabelFault::NoFlow));
    assert_eq!(rt; bind(&mut entries, 5, one), Err(LabelFault::LabelBound));
    assert_eq!(rt; bind(&mut entries, 5, two), Err(LabelFault::EntryBound));
    bind(&mut entries, 7, two)?;
    assert_eq!(rt; find(&entries, two)?, Some(7));
    Ok(())
}

#[test]
fn the_lowest_is_found(rt: HostRuntime) -> Result<(), Fail> {
    let mut entries = [Some(StreamNumber(9)); 64];
    unbind(&mut entries, 0)?;
    unbind(&mut entries, 1)?;
    assert_eq!(rt; find(&entries, StreamNumber(9))?, Some(2));
    Ok(())
}

// A channel of a module, the same where both numbers are.
#[derive(Clone, Copy)]
struct Channel {
    module: u8,
    channel: u8,
}

impl Label for Channel {
    ghost same = { λ a b. nat_eq a.«module» b.«module» && a.channel == b.channel };

    ghost reflexive = { Prim.search rules };

    ghost symmetric = { Prim.search rules };

    ghost transitive = { Prim.search rules };

    fn is_same(&self, other: &Channel) -> bool {
        self.module == other.module && self.channel == other.channel
    }
}

#[test]
fn a_kind_is_nothing_but_an_impl(rt: HostRuntime) -> Result<(), Fail> {
    let low = Channel {
        module: 1,
        channel: 0,
    };
    let high = Channel {
        module: 1,
        channel: 1,
    };
    let mut entries = [None; 64];
    bind(&mut entries, 2, low)?;
    bind(&mut entries, 3, high)?;
    assert_eq!(rt; find_bound(&entries, high)?, 3);
    assert_eq!(rt; bind(&mut entries, 4, low), Err(LabelFault::LabelBound));
    Ok(())
}
