//! Tells which links the routes of a fabric cross, and which routes overlap.
#![tactic(auto)]

use fabric::Fabric;
use fabric::faults::FabricFault;
use fabric::lines::Line;
use fabric::pairs::Pair;
use fabric::route_checks::check;
use fabric::route_lists::RouteList;
use fabric::trees::Tree;
use report::descriptions::Description;
use report::lines::{ListLine, overlap_line, route_line};
use report::piles::Pile;
use report::requests::{Request, read_request};
use report::texts::{MisuseText, RefusalText, usage};
use std::fmt::Display;
use std::process::ExitCode;
use std::{env, fs};

// A line for each of the others that overlaps the one.
fn report_overlaps<F: Fabric>(
    rt: &HostRuntime,
    fabric: &F,
    one: Pair,
    others: &[Pair],
) -> anyhow::Result<()> {
    for other in others {
        if let Some(line) = overlap_line(rt.alloc(), fabric, one, *other)? {
            rt.println(line)?;
        }
    }
    Ok(())
}

// A line for each pair, then one for each two pairs that overlap.
fn report_on<F: Fabric>(rt: &HostRuntime, fabric: &F, pairs: &[Pair]) -> anyhow::Result<ExitCode> {
    for pair in pairs {
        rt.println(route_line(rt.alloc(), fabric, *pair)?)?;
    }
    let mut rest = pairs;
    while let [one, others @ ..] = rest {
        report_overlaps(rt, fabric, *one, others)?;
        rest = others;
    }
    Ok(ExitCode::SUCCESS)
}

// Why the arguments were turned away, and how the program is called. The run then ends with status 1.
fn turn_away(rt: &HostRuntime, why: &impl Display) -> anyhow::Result<ExitCode> {
    eprintln!(rt; "routes: {why}")?;
    rt.eprintln(usage())?;
    Ok(ExitCode::FAILURE)
}

// Puts the modules on the fabric, the lowest first, and reports on the pile. The fabric comes as it was made, so that a refusal of
// any kind of fabric is told here alone.
fn report_with<F: Fabric + Drop>(
    rt: &HostRuntime,
    fabric: Result<F, FabricFault>,
    request: &Request,
) -> anyhow::Result<ExitCode> {
    let mut pile = match fabric {
        Ok(fabric) => Pile::Base(fabric),
        Err(fault) => return turn_away(rt, &RefusalText(fault)),
    };
    for module in &request.modules {
        if let Err(fault) = module.fits(pile.size()) {
            return turn_away(rt, &RefusalText(fault));
        }
        pile = Pile::Joined(Box::new(rt.alloc(), pile)?, *module);
    }
    report_on(rt, &pile, request.pairs.as_slice())
}

// Tells what a route list has, or where it is refused, and goes on to the pairs.
fn report_on_list(rt: &HostRuntime, bytes: &[u8], request: &Request) -> anyhow::Result<ExitCode> {
    match check(bytes) {
        Ok(list) => {
            rt.println(ListLine(list))?;
            report_with(rt, Ok(RouteList::new(bytes)), request)
        }
        Err(fault) => {
            rt.println(RefusalText(fault))?;
            Ok(ExitCode::FAILURE)
        }
    }
}

fn report_on_file(rt: &HostRuntime, file: &str, request: &Request) -> anyhow::Result<ExitCode> {
    match fs::read(rt, file) {
        Ok(bytes) => report_on_list(rt, bytes.as_slice(), request),
        Err(error) => {
            eprintln!(rt; "routes: '{file}' cannot be read: {error}")?;
            Ok(ExitCode::FAILURE)
        }
    }
}

fn report_on_request(rt: &HostRuntime, request: &Request) -> anyhow::Result<ExitCode> {
    match &request.description {
        Description::Line(terminals) => report_with(rt, Line::new(*terminals), request),
        Description::Tree(parents) => report_with(rt, Tree::try_from(parents.as_slice()), request),
        Description::List(file) => report_on_file(rt, file.as_str(), request),
    }
}

fn main(rt: HostRuntime) -> anyhow::Result<ExitCode> {
    let words: Vec<String> = env::args(&rt)?.skip(1).collect(rt.alloc())?;
    match read_request(rt.alloc(), words.as_slice()) {
        Ok(request) => report_on_request(&rt, &request),
        Err(misuse) => turn_away(
            &rt,
            &MisuseText {
                words: words.as_slice(),
                misuse,
            },
        ),
    }
}
