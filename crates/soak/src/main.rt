//! Makes thousands of calls on plans in a bad order, and looks after each for what must not be.
#![tactic(auto)]

mod dice;
mod drives;
mod looks;
mod tallies;

use crate::dice::Dice;
use crate::drives::drive;
use crate::tallies::Tally;
use anyhow::anyhow;
use fabric::Fabric;
use fabric::lines::Line;
use fabric::modules::Module;
use fabric::route_lists::RouteList;
use fabric::spurs::Spur;
use fabric::trees::Tree;
use planner::any_plans::AnyPlan;
use planner::periods::Period;
use planner::plans::Plan;

// A ring of 4 terminals and 4 links, and a line for each route: 0 to 1 over {0, 1}, 1 to 2 over {1, 2}, 2 to 3 over
// {2, 3}, 3 to 0 over {3, 0}, and back again over the same links. Routes that are next to one another overlap.
const RING: &[u8; 47] = b"\
    \x00\x2d\x01\x04\x00\x04\x08\
    \x00\x01\x02\x00\x01\
    \x01\x02\x02\x01\x02\
    \x02\x03\x02\x02\x03\
    \x03\x00\x02\x03\x00\
    \x01\x00\x02\x00\x01\
    \x02\x01\x02\x01\x02\
    \x03\x02\x02\x02\x03\
    \x00\x03\x02\x03\x00\
";

// What the drives have in common.
#[derive(Drop)]
struct Soak {
    dice: Dice,
    period: Period,
    total: Tally,
}

impl Soak {
    // Drives a plan over the fabric that is made, then one with a module on its fabric, begun where the first ended. The
    // fabric is made twice: its twin answers for the looks, apart from the plans.
    fn drive_with_module<F: Fabric + Drop, M: Fn() -> anyhow::Result<F>>(
        &mut self,
        rt: &HostRuntime,
        name: &str,
        make: M,
    ) -> anyhow::Result<()>
        requires { M.IsAlwaysCallable make }
    {
        let twin = make()?;
        let plan = AnyPlan::Resting(Plan::open(make()?, self.period));
        let (driven, tally) = drive(plan, &twin, &mut self.dice, 1000);
        println!(rt; "{name}: {tally}")?;
        self.total += tally;
        // at rest, every flow of the plan is placed anew or refused; then a module is put on the fabric
        let mut rested = match driven {
            AnyPlan::Running(plan) => plan.rest(),
            AnyPlan::Resting(plan) => plan,
        };
        let placed = rested.replan().is_ok();
        let module = Module { port: 1, count: 2 };
        let fits = rested.fits(module).is_ok();
        println!(rt; "{name}: placed {placed}, a module fits {fits}")?;
        let fitted = AnyPlan::Resting(rested.fit(module));
        let (_, more) = drive(fitted, &Spur::new(twin, module), &mut self.dice, 1500);
        println!(rt; "{name} with a module: {more}")?;
        self.total += more;
        Ok(())
    }
}

fn line() -> anyhow::Result<Line> {
    Line::new(8).map_err(|_| anyhow!("no line"))
}

fn tree() -> anyhow::Result<Tree> {
    let parents: &[u16] = &[0, 0, 1, 1, 2, 4, 4, 2, 8];
    Tree::try_from(parents).map_err(|_| anyhow!("the tree"))
}

fn ring() -> anyhow::Result<RouteList<'static>> {
    Ok(RouteList::new(RING))
}

fn spur() -> anyhow::Result<Spur<Line>> {
    Ok(Spur::new(line()?, Module { port: 6, count: 3 }))
}

fn run(rt: &HostRuntime) -> anyhow::Result<()> {
    let mut soak = Soak {
        dice: Dice::new(2026),
        period: Period::new(9).map_err(|_| anyhow!("the period"))?,
        total: Tally::default(),
    };
    soak.drive_with_module(rt, "line", line)?;
    soak.drive_with_module(rt, "tree", tree)?;
    soak.drive_with_module(rt, "ring", ring)?;
    soak.drive_with_module(rt, "spur", spur)?;
    let total = soak.total;
    println!(rt; "total: {total}")?;
    Ok(())
}

fn main(rt: HostRuntime) -> anyhow::Result<()> {
    run(&rt)
}
