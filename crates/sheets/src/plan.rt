ghost use Rattle.std.specs.Prelude.{◌≡◌};
ghost use Rattle.sheets.specs.Settings.{height_of};
ghost use Rattle.sheets.specs.Told.{pairs_of};
ghost use Rattle.sheets.specs.Views.{subject_of};

use maps::{Draft, Map};

// What a sheet is about: regions, as a draft while their pair lines come and then as a sealed map, or a
// polygon's number of corners.
#[derive(Clone, Copy)]
pub enum Subject<M = Map> {
    Regions(M),
    Polygon(u32),
}

// What an accepted sheet asks for.
#[derive(Clone, Copy)]
pub struct Plan {
    pub subject: Subject<Map>,
    // the C line's number, otherwise the subject's height
    pub cap: u32,
    // the most objects to print
    pub most: u32,
}

impl From<Subject<Draft>> for Subject<Map> {
    ghost use Rattle.std.specs.Prelude.{◌≡◌};
    ghost use Rattle.sheets.specs.Views.{subject_of, topic_of};

    ghost from_gives = { λ topic subject. subject_of subject ≡ topic_of topic };

    // A draft's pairs are sealed.
    fn from(topic: Subject<Draft>) -> Subject<Map> {
        match topic {
            Subject::Regions(draft) => Subject::Regions(draft.seal()),
            Subject::Polygon(n) => Subject::Polygon(n),
        }
    }
}

impl Subject<Map> {
    // The greatest rank of the subject's objects.
    pub fn height(&self) -> u32
        ensures { result ≡ height_of (subject_of self.now) }
    {
        match self {
            Subject::Regions(map) => map.regions(),
            Subject::Polygon(n) => n.saturating_sub(3),
        }
    }

    // How many pairs touch; a polygon has none.
    pub fn pairs(&self) -> u32
        ensures { result ≡ pairs_of (subject_of self.now) }
    {
        match self {
            Subject::Regions(map) => map.pair_count(),
            Subject::Polygon(_) => 0,
        }
    }
}
