//! A list of acts over a new census, with the whole promise.
ghost use Rattle.std.specs.Prelude.{◌≡◌, map};
ghost use Rattle.oracle.specs.Outcomes.{ticks};
ghost use Rattle.oracle.specs.Statements.{Complete, Numbered};
ghost use Rattle.engine.specs.Counts.{Counted, Since};
ghost use Rattle.engine.specs.Runs.{order_of, entry_of, plain_run};
ghost use Rattle.engine.specs.Steps.{run_steps, RefusalsChangeNothing, WholeCalls};
ghost use Rattle.engine.specs.View.{begun};

use crate::call::Call;
use crate::census::Census;
use oracle::coded::Coded;

// Makes a census over the oracle and carries out the calls in their order. The oracle is told to step as often as
// making and the acts cost, and no more; from making or a restart to the end of the list that is the way home and
// N × D + F.
pub fn run<O: Coded>(oracle: O, calls: &mut [Call]) -> Census<O>
    requires { O.Walking.sound oracle }
    ensures setup { O.Walking.setup result.oracle ≡ O.Walking.setup oracle }
    ensures complete { Complete (O.Walking.setup oracle) }
    ensures numbered { Numbered (O.Walking.setup oracle) }
    ensures in_step { (map entry_of calls.new, result.view) ≡ plain_run (O.Walking.setup oracle) (begun (O.Walking.setup oracle)) (map order_of calls.old) }
    ensures counted { Counted (O.Walking.setup oracle) (map entry_of calls.new) }
    ensures since { Since (O.Walking.setup oracle) (map entry_of calls.new) }
    ensures called { O.Walking.calls result.oracle ≡ ticks O.Walking.tick (run_steps (O.Walking.setup oracle) (O.Walking.current oracle) (map order_of calls.old)) (O.Walking.calls oracle) }
    ensures refused { RefusalsChangeNothing (O.Walking.setup oracle) }
    ensures whole_calls { WholeCalls (O.Walking.setup oracle) }
{
    let mut census = Census::new(oracle);
    for call in calls.iter_mut() {
        call.answer = census.perform(call.act, call.bytes.as_mut_slice());
        call.tally = census.tally();
    }
    census
}
