//! Takes the censuses of families whose totals are known by formulas, and prints a line for each.
#![tactic(auto)]

mod counting;
mod families;

use anyhow::Context;
use cap::Cap;
use counting::{filled, total};
use engine::tally::Tally;
use families::Family;
use polygon::Polygon;
use regions::Regions;
use std::fmt::Display;

fn print_polygon(rt: &HostRuntime, n: u32) -> anyhow::Result<()> {
    let Some(tally) = total(Polygon::new(n)?) else {
        println!(rt; "polygon {n} not reached")?;
        return Ok(());
    };
    let filled = filled(tally, u64::from(n)).context("fewer steps than slots")?;
    let objects = tally.objects;
    println!(rt; "polygon {n} objects {objects} filled {filled}")?;
    Ok(())
}

fn print_total(
    rt: &HostRuntime,
    label: impl Display + Drop,
    total: Option<Tally>,
) -> anyhow::Result<()> {
    match total {
        Some(Tally { objects, .. }) => println!(rt; "{label} objects {objects}")?,
        None => println!(rt; "{label} not reached")?,
    }
    Ok(())
}

// The connected sets of a family's maps, the empty one among them.
fn print_sizes(rt: &HostRuntime, family: Family, sizes: &[u32]) -> anyhow::Result<()> {
    for n in sizes {
        let map = family.map(*n)?;
        let sets = total(Regions::new(&map));
        print_total(rt, format_args!("{family} {n}"), sets)?;
    }
    Ok(())
}

// Those of one map that have at most so many regions.
fn print_caps(rt: &HostRuntime, family: Family, n: u32, caps: &[u32]) -> anyhow::Result<()> {
    let map = family.map(n)?;
    for most in caps {
        let sets = total(Cap::new(Regions::new(&map), *most));
        print_total(rt, format_args!("{family} {n} cap {most}"), sets)?;
    }
    Ok(())
}

fn run(rt: &HostRuntime) -> anyhow::Result<()> {
    for n in 3..14 {
        print_polygon(rt, n)?;
    }
    print_sizes(rt, Family::Path, &[1, 2, 5, 20, 64])?;
    print_sizes(rt, Family::Cycle, &[3, 4, 10, 64])?;
    print_sizes(rt, Family::Complete, &[1, 2, 5, 12])?;
    print_sizes(rt, Family::Star, &[3, 5, 12])?;
    print_sizes(rt, Family::Grid, &[2, 3, 4])?;
    print_caps(rt, Family::Complete, 10, &[0, 1, 3, 10])?;
    print_caps(rt, Family::Complete, 20, &[3])?;
    print_caps(rt, Family::Path, 10, &[0, 1, 4, 10])?;
    print_caps(rt, Family::Path, 64, &[5])
}

fn main(rt: HostRuntime) -> anyhow::Result<()> {
    run(&rt)
}
