//! Carries out the acts of standard input over the census that a sheet asks for, and prints what
//! each answers.
#![tactic(auto)]

use anyhow::Context;
use printouts::print_replay;
use std::env;
use std::fs::File;

fn main(rt: HostRuntime) -> anyhow::Result<()> {
    let path = env::args(&rt)?.nth(1).context("give the file of a sheet")?;
    let mut sheet = File::open(&rt, path.as_str())?;
    print_replay(rt.alloc(), &mut sheet, &mut rt.stdin(), &mut rt.stdout())?;
    Ok(())
}
