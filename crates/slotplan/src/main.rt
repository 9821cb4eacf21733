//! Runs the script on standard input, and prints the answers to its lines.
#![tactic(auto)]

ghost use Rattle.std.specs.Prelude.{◌≤◌, length, IfOk};

use session::printers::{Printer, Unprinted};
use session::running::{LIMIT, run_script};
use std::io;
use std::io::Read;
use std::process::ExitCode;

// One byte more than a script may have: a longer one is refused as a whole, whatever follows.
const ENOUGH: usize = LIMIT + 1;

// Standard output. What is printed is outside of what a contract can say.
#[derive(Drop)]
struct Screen<'a> {
    rt: &'a HostRuntime,
}

impl Printer for Screen<'_> {
    ghost took = { λ _ _ _. Unit {0} };

    fn print_line(&mut self, line: &str) -> Result<(), Unprinted> {
        self.rt.println(line).map_err(|_| Unprinted)
    }
}

// Reads until the input ends or the room is full, and tells how many bytes there are. `read_to_end` would ask for memory, which
// may be wanting, and for a small part of the input at first, which cuts an input that comes as one message.
fn read_script(rt: &HostRuntime, room: &mut [u8]) -> io::Result<usize>
    ensures { IfOk result (λ count. count ≤ length room.old) }
{
    let mut input = rt.stdin();
    let mut count = 0;
    while count < room.len() {
        let more = input.read(&mut room[count..])?;
        if more == 0 {
            break;
        }
        count += more;
    }
    Ok(count)
}

fn main(rt: HostRuntime) -> anyhow::Result<ExitCode> {
    let mut room = [0; ENOUGH];
    let count = match read_script(&rt, &mut room) {
        Ok(read) => read,
        Err(error) => {
            eprintln!(rt; "slotplan: the script cannot be read: {error}")?;
            return Ok(ExitCode::FAILURE);
        }
    };
    let mut screen = Screen { rt: &rt };
    if let Err(fault) = run_script(&room[..count], rt.alloc(), &mut screen) {
        eprintln!(rt; "slotplan: {fault}")?;
        return Ok(ExitCode::FAILURE);
    }
    Ok(ExitCode::SUCCESS)
}
