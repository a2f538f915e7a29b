ghost use Rattle.std.specs.Prelude.{◌≡◌};
ghost use Rattle.maps.specs.Views.{drafted, through};
ghost use Rattle.std.specs.Option.{option_map};
ghost use Rattle.sheets.specs.Reading.{after_bytes};
ghost use Rattle.sheets.specs.Settings.{unset, regions_with, polygon_with, pair_after, counted as countedBy, set_by, after_line};
ghost use Rattle.sheets.specs.Views.{topic_of, state_of};

use super::fault::Fault;
use super::order::{follows, stopped};
use super::plan::Subject;
use super::state::State;
use items::{Kind, Line, read_line};
use maps::Draft;
use refusals::Refusal;

fn polygon(n: u32) -> Result<Subject<Draft>, Refusal>
    ensures { through topic_of result ≡ polygon_with n }
{
    // a polygon's own making has the same limits, and no sheet
    if n < 3 || n > 24 {
        return Err(Refusal::OutOfRange);
    }
    Ok(Subject::Polygon(n))
}

fn regions(n: u32) -> Result<Subject<Draft>, Refusal>
    ensures { through topic_of result ≡ regions_with n }
{
    Ok(Subject::Regions(Draft::new(n)?))
}

// One pair line more: a polygon takes none, and before line 1 there is no region to name.
fn pair(topic: Option<Subject<Draft>>, a: u32, b: u32) -> Result<Subject<Draft>, Refusal>
    ensures { through topic_of result ≡ pair_after (option_map topic_of topic) a b }
{
    match topic {
        Some(Subject::Regions(mut draft)) => {
            draft.add(a, b)?;
            Ok(Subject::Regions(draft))
        }
        Some(Subject::Polygon(n)) if a < n && b < n => Err(Refusal::BadPair),
        _ => Err(Refusal::OutOfRange),
    }
}

// The number of a C line or a full-stop line.
fn counted(number: u32) -> Result<u32, Refusal>
    ensures { result ≡ countedBy number }
{
    if number > 1_000_000 {
        return Err(Refusal::OutOfRange);
    }
    Ok(number)
}

impl State {
    // Before the first line.
    pub(crate) fn new() -> Self
        ensures { state_of result ≡ unset }
    {
        State {
            last: None,
            topic: None,
            cap: None,
            most: 0,
        }
    }

    // The values of a line that is in place.
    fn set_by(mut self, line: Line) -> Result<State, Refusal>
        ensures { through state_of result ≡ set_by (state_of self) line }
    {
        match line {
            Line::Regions(n) => self.topic = Some(regions(n)?),
            Line::Polygon(n) => self.topic = Some(polygon(n)?),
            Line::Pair(a, b) => self.topic = Some(pair(self.topic, a, b)?),
            Line::Cap(cap) => self.cap = Some(counted(cap)?),
            Line::Stop(most) => self.most = counted(most)?,
        }
        self.last = Some(Kind::from(line));
        Ok(self)
    }

    // One line more: its place among the lines comes before its values.
    #[tactic(auto, unfolding(crate::specs::Settings::after_line))]
    fn after_line(self, line: Line) -> Result<State, Refusal>
        ensures { through state_of result ≡ after_line (state_of self) line }
    {
        if !follows(self.last, Kind::from(line)) {
            return Err(Refusal::LineOrder);
        }
        self.set_by(line)
    }

    // The bytes of the finished line of that number more; behind the full stop nothing may stand.
    #[tactic(auto, unfolding(crate::specs::Reading::after_bytes))]
    pub(crate) fn after_bytes(self, bytes: &[u8], number: u32) -> Result<State, Fault>
        ensures { through state_of result ≡ after_bytes (state_of self) bytes.now number }
    {
        if stopped(self.last) {
            return Err(Fault {
                refusal: Refusal::LineOrder,
                line: number,
            });
        }
        let line = read_line(bytes, number).map_err(|fault| Fault::at(fault.value, fault.place))?;
        self.after_line(line.value)
            .map_err(|refusal| Fault::at(refusal, line.place))
    }
}
