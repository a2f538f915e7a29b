//! Families of maps of which it is known how many connected sets they have.
use maps::{Draft, Map};
use refusals::Refusal;
use std::fmt;

#[derive(Clone, Copy)]
pub(crate) enum Family {
    // n regions, each touching the next
    Path,
    // the same, with the last touching the first
    Cycle,
    // n regions, any two of which touch
    Complete,
    // n regions, the first touching every other
    Star,
    // n rows of n regions, each touching the next of its row and the one below
    Grid,
}

impl fmt::Display for Family {
    fn fmt<W: fmt::Write>(&self, f: &mut fmt::Formatter<W>) -> fmt::Result {
        match self {
            Family::Path => f.write_str("path"),
            Family::Cycle => f.write_str("cycle"),
            Family::Complete => f.write_str("complete"),
            Family::Star => f.write_str("star"),
            Family::Grid => f.write_str("grid"),
        }
    }
}

impl Family {
    pub(crate) fn map(self, n: u32) -> Result<Map, Refusal> {
        match self {
            Family::Path => draw(n, |a, b| a.abs_diff(b) == 1),
            Family::Cycle => draw(
                n,
                |a, b| a.abs_diff(b) == 1 || a == 0 && n.checked_sub(b) == Some(1),
            ),
            Family::Complete => draw(n, |_, _| true),
            Family::Star => draw(n, |a, _| a == 0),
            Family::Grid => draw(n.saturating_mul(n), |a, b| {
                let apart = a.abs_diff(b);
                apart == n || apart == 1 && b.checked_rem(n) != Some(0)
            }),
        }
    }
}

// A map of n regions, of which those touch that the rule names, a lower number before a higher.
fn draw<F: Fn(u32, u32) -> bool + Drop>(n: u32, touch: F) -> Result<Map, Refusal>
    requires { F.IsAlwaysCallable touch }
{
    let mut draft = Draft::new(n)?;
    for b in 1..n {
        join_lower(&mut draft, b, &touch)?;
    }
    Ok(draft.seal())
}

// Joins a region to those of a lower number that it touches.
fn join_lower<F: Fn(u32, u32) -> bool>(draft: &mut Draft, b: u32, touch: &F) -> Result<(), Refusal>
    requires { F.IsAlwaysCallable touch.now }
{
    for a in 0..b {
        if touch(a, b) {
            draft.add(a, b)?;
        }
    }
    Ok(())
}
