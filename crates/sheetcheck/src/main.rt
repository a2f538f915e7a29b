//! Reads a sheet from standard input and says in one line what it asks for, or its fault.
#![tactic(auto)]

use lines::verdict::print_verdict;

fn main(rt: HostRuntime) -> anyhow::Result<()> {
    print_verdict(rt.alloc(), &mut rt.stdin(), &mut rt.stdout())?;
    Ok(())
}
