//! Reads a sheet from standard input and prints the objects that it asks for, or its fault.
#![tactic(auto)]

use printouts::print_sheet;

fn main(rt: HostRuntime) -> anyhow::Result<()> {
    print_sheet(rt.alloc(), &mut rt.stdin(), &mut rt.stdout())?;
    Ok(())
}
