// Measures how long the search takes: on random full lists, and on lists of periods with many
// divisors where most boxes meet.
#![tactic(auto)]

mod lists;
mod timing;

use draws::DrawList;
use lists::Random;
use programs::status_of;
use std::env::{self, Env};
use std::io;
use std::process::ExitCode;
use std::time::Clock;
use timing::Timing;

const RANDOM_LISTS: u32 = 1_000;

const COMPOSITE_LISTS: u32 = 100;

const SEED: u64 = 0x9e37_79b9_7f4a_7c15;

// The peaks are always told; how long they took only where it is asked for, since no two runs
// agree on it.
fn report(rt: &impl Print, what: &str, timing: Timing, times: bool) -> io::Result<()> {
    println!(rt;
        "{what}: {} lists, peaks {} in all",
        timing.lists, timing.peaks
    )?;
    if times {
        println!(rt;
            "{what}: {} ns on average, {} ns at worst",
            timing.mean(),
            timing.worst
        )?;
    }
    Ok(())
}

// How long the search took on so many made lists.
fn measured<F: FnMut() -> DrawList>(rt: &impl Clock, lists: u32, mut make: F) -> io::Result<Timing>
    requires { F.IsAlwaysCallable make }
{
    let mut timing = Timing::default();
    for _ in 0..lists {
        timing.measure(rt, &make())?;
    }
    Ok(timing)
}

fn run(rt: &(impl Env + Alloc + Clock + Print)) -> anyhow::Result<()> {
    let times = env::args(rt)?.count() > 1;
    let mut random = Random::new(SEED);
    let timing = measured(rt, RANDOM_LISTS, || random.random_list())?;
    report(rt, "random", timing, times)?;
    let timing = measured(rt, COMPOSITE_LISTS, || random.composite_list())?;
    report(rt, "composite", timing, times)?;
    Ok(())
}

fn main(rt: HostRuntime) -> ExitCode {
    let done = run(&rt);
    status_of(&rt, "peak_bench", done)
}
