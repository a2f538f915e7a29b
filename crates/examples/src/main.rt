//! Runs the examples of standard input, one a line, and prints behind each what is answered.
#![tactic(auto)]

use anyhow::{Context, bail};
use lines::verdict::verdict_line;
use printouts::{list_sheet, replay_sheet};
use std::io;
use std::io::Write;

// Lines of a listing that are written at a time.
const PAGE: usize = 3;

// The bytes that a text stands for: ~ is a line break, and ^ a byte that is no text.
fn bytes_of(rt: &HostRuntime, text: &str) -> anyhow::Result<Vec<u8>> {
    let bytes = text
        .bytes()
        .map(|byte| match byte {
            b'~' => b'\n',
            b'^' => 0xff,
            byte => byte,
        })
        .collect(rt.alloc())?;
    Ok(bytes)
}

// Appends what is answered: the verdict on a sheet, its listing, or the answers of acts over its census.
fn answer(rt: &HostRuntime, example: &str, out: &mut Vec<u8>) -> anyhow::Result<()> {
    let mut parts = example.split('|');
    let form = parts.next().context("no example")?;
    let sheet = bytes_of(rt, parts.next().context("an example without a sheet")?)?;
    match (form, parts.next()) {
        ("verdict", None) => verdict_line(out, &sheet)?,
        ("list", None) => list_sheet(&sheet, PAGE, out)?,
        ("replay", Some(acts)) => {
            let acts = bytes_of(rt, acts)?;
            replay_sheet(&sheet, &acts, out)?;
        }
        _ => bail!("no form of an example"),
    }
    Ok(())
}

fn main(rt: HostRuntime) -> anyhow::Result<()> {
    let examples = io::read_to_string(rt.alloc(), rt.stdin())?;
    let mut out = Vec::new(rt.alloc());
    for example in examples.lines() {
        out.extend_from_slice(example.as_bytes())?;
        out.push(b'\n')?;
        answer(&rt, example, &mut out)?;
    }
    rt.stdout().write_all(out.as_slice())?;
    Ok(())
}
