//! A listing from its first line on.
ghost use Rattle.std.specs.Prelude.{◌≡◌};
ghost use Rattle.pages.specs.Left.{left};
ghost use Rattle.pages.specs.Lines.{all_lines, WholeSteps};
ghost use Rattle.pages.specs.Turns.{PagesJoin};

use crate::pager::Pager;
use engine::census::Census;
use oracle::coded::Coded;

impl<O: Coded> Pager<O> {
    // The first line of at most so many objects.
    #[tactic(auto, using(crate::proofs::Listed::whole_steps, crate::proofs::Turned::pages_join))]
    pub fn new(oracle: O, most: u32) -> Pager<O>
        requires { O.Walking.sound oracle }
        ensures setup { O.Walking.setup result.census.oracle ≡ O.Walking.setup oracle }
        ensures lines { left O.Walking.setup result ≡ all_lines (O.Walking.setup oracle) most }
        ensures whole { WholeSteps (O.Walking.setup oracle) most }
        ensures pages { PagesJoin (all_lines (O.Walking.setup oracle) most) }
    {
        Pager {
            census: Census::new(oracle),
            most,
            printed: 0,
            done: false,
        }
    }
}
