//! Lines that are forms, and lines that are none.
use script::commands::{Command, read_command};
use script::descriptions::{Description, read_description};
use script::lines::{Line, Lines, line_at};
use script::openings::read_opening;
use std::array;

// Whether each line is a command, or none is.
fn all_commands(script: &[u8], wanted: bool) -> bool {
    Lines::new(script).all(|line| read_command(line).is_some() == wanted)
}

#[test]
fn lines_by_their_places(rt: HostRuntime) {
    let script = b"show\n\nrest";
    for (from, bytes, next) in [
        (0, b"show".as_slice(), 5),
        (2, b"ow", 5),
        (5, b"", 6),
        (6, b"rest", 10),
    ] {
        assert_eq!(rt; line_at(script, from), Some(Line { bytes, next }));
    }
    for from in [10, 11, usize::MAX] {
        assert_eq!(rt; line_at(script, from), None);
    }
}

#[test]
fn commands(rt: HostRuntime) {
    assert!(rt;
        all_commands(
            b"enrol adc 0 0 2 3\nadmit a 65535 10 9 0\nwithdraw withdraw\nreplan\nstart\nrest\nshow",
            true,
        )
    );
}

#[test]
fn no_commands(rt: HostRuntime) {
    assert!(rt;
        all_commands(
            b"\nshow \n show\nshow show\nSHOW\nshow\r\nshow\0\nshow.\nshows\nline 5\nopen 8\ntree\n",
            false,
        )
    );
    assert!(rt;
        all_commands(
            b"withdraw\nwithdraw  a\nwithdraw abcdefghi\nwithdraw 7\nwithdraw a b\nwithdraw \xff\n",
            false,
        )
    );
    assert!(rt;
        all_commands(
            b"enrol adc 00 0 2 3\nenrol adc 0 0 2 03\nenrol adc 0 0 2 65536\nenrol adc 0 0 2 +3\n",
            false,
        )
    );
    assert!(rt;
        all_commands(
            b"enrol adc 0 0 2\nenrol adc 0 0 2 3 4\nenrol 0 adc 0 2 3\nenrol adc 0 0 2 a\n",
            false,
        )
    );
}

// The numbers of the flow that is enrolled, if it has this name.
fn enrolled(line: &[u8], name: &[u8]) -> Option<(u16, u16, u16, u16)> {
    match read_command(line)? {
        Command::Enrol(flow) if flow.name.as_bytes() == name => {
            Some((flow.number, flow.source, flow.destination, flow.demand))
        }
        _ => None,
    }
}

#[test]
fn flow_of_a_command(rt: HostRuntime) {
    assert_eq!(rt;
        enrolled(b"enrol adc 1 20 300 65535", b"adc"),
        Some((1, 20, 300, 65535))
    );
}

// How many parents a tree is described with.
#[derive(Clone, Copy, PartialEq, Eq, Debug)]
enum Parents {
    Kept(usize),
    TooMany,
}

fn parents_of(line: &[u8]) -> Option<Parents> {
    match read_description(line)? {
        Description::Tree(parents) => Some(Parents::Kept(parents.as_slice().len())),
        Description::LongTree => Some(Parents::TooMany),
        Description::Line(_) => None,
    }
}

// The same, of so many zeros after `tree`.
fn parents_of_zeros(count: usize) -> Option<Parents> {
    let line: [u8; 300] = array::from_fn(|at| match b"tree".get(at) {
        Some(letter) => *letter,
        None if at % 2 == 0 => b' ',
        None => b'0',
    });
    if count > 140 {
        return None;
    }
    parents_of(&line[..4 + 2 * count])
}

#[test]
fn descriptions(rt: HostRuntime) {
    assert_eq!(rt; parents_of(b"tree 0 0 1 65535"), Some(Parents::Kept(4)));
    assert_eq!(rt; parents_of_zeros(0), Some(Parents::Kept(0)));
    assert_eq!(rt; parents_of_zeros(127), Some(Parents::Kept(127)));
    assert_eq!(rt; parents_of_zeros(128), Some(Parents::TooMany));
    assert_eq!(rt; parents_of(b"tree 0 a"), None);
    assert_eq!(rt; parents_of(b"tree "), None);
    assert_eq!(rt; parents_of(b"line 8"), None);
    assert!(rt; read_description(b"line").is_none());
}

#[test]
fn openings(rt: HostRuntime) {
    assert_eq!(rt; read_opening(b"open 0"), Some(0));
    assert_eq!(rt; read_opening(b"open 65535"), Some(65535));
    assert_eq!(rt; read_opening(b"open 65536"), None);
    assert_eq!(rt; read_opening(b"open"), None);
    assert_eq!(rt; read_opening(b"line 8"), None);
}
