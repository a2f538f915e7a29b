//! What holds of every lawful set-up: each call carries one theorem in its contract.
ghost use Rattle.std.specs.Prelude.{◌≡◌, ℕ, ◌≤◌};
ghost use Rattle.oracle.specs.Laws.{Lawful};
ghost use Rattle.oracle.specs.Limits.{single, widest, Within};
ghost use Rattle.oracle.specs.Outcomes.{ceiling, counted};
ghost use Rattle.oracle.specs.Setup.{Setup};
ghost use Rattle.oracle.specs.Statements.{Complete, WalkRules, WalkLeadsOn, StepsCounted, Numbered, HomeChain, StepsHome};

// The list holds every object exactly once, at a place that answers it, parents before children.
pub fn list_stands()
    ensures { (s : Setup) → Lawful s → Complete s }
{}

// The walk is the one of the rules.
pub fn walk_stands()
    ensures { (s : Setup) → Lawful s → WalkRules s }
{}

// The walk from a place stops at the next.
pub fn places_stands()
    ensures { (s : Setup) → Lawful s → WalkLeadsOn s }
{}

// The walks of all places make a step for each slot of each object, and one more for each filled.
pub fn steps_stands()
    ensures { (s : Setup) → Lawful s → StepsCounted s }
{}

// How many objects and filled slots there are hangs on no order.
pub fn numbers_stands()
    ensures { (s : Setup) → Lawful s → Numbered s }
{}

// Stepping home reaches the root, and the steps that it takes are counted.
pub fn home_stands()
    ensures chain { (s : Setup) → Lawful s → HomeChain s }
    ensures steps { (s : Setup) → Lawful s → StepsHome s }
{}

// A set-up keeps within the limits, and each width, code size and height within them is one of a set-up, the greatest
// together too. A count is exact up to its ceiling, and stays there.
pub fn limits_stand()
    ensures within { (s : Setup) → Lawful s → Within s.width s.size s.height }
    ensures each { (width size height : ℕ) → Within width size height → Lawful (single width size height) }
    ensures widest { Lawful widest }
    ensures ceiling { ceiling ≡ 18446744073709551615 }
    ensures exact { (n : ℕ) → n ≤ 18446744073709551615 → counted n ≡ n }
    ensures stays { (n : ℕ) → 18446744073709551615 ≤ n → counted n ≡ 18446744073709551615 }
{}
