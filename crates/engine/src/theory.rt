//! What holds of every census over a lawful set-up: each call carries one theorem in its contract.
ghost use Rattle.oracle.specs.Laws.{Lawful};
ghost use Rattle.oracle.specs.Setup.{Setup};
ghost use Rattle.engine.specs.Scenarios.{RestartCounts, SaveResumes};

// After any acts a restart, and then any acts from the first place to the end of the list, end with the
// tally of the whole list; as many nexts as there are objects are such acts.
pub fn restart_stands()
    ensures { (s : Setup) → Lawful s → RestartCounts s }
{}

// What is saved anywhere in the list is resumed from anywhere, and the census stands there again.
pub fn resume_stands()
    ensures { (s : Setup) → Lawful s → SaveResumes s }
{}
