use super::plan::Subject;
use items::Kind;
use maps::Draft;

// What the lines so far have asked for.
#[derive(Drop)]
pub struct State {
    pub last: Option<Kind>,
    pub topic: Option<Subject<Draft>>,
    pub cap: Option<u32>,
    // 0 and no Option: a plan is made only after the full stop, which sets it
    pub most: u32,
}
