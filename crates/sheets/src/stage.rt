use items::Kind;

// The parts of a sheet, in the order in which their lines come.
#[derive(Clone, Copy, PartialEq, Eq, PartialOrd, Ord)]
pub enum Stage {
    Subject,
    Pairs,
    Cap,
    Stop,
}

// The stage of a sheet at which a kind of line stands.
impl From<Kind> for Stage {
    ghost use Rattle.std.specs.Prelude.{◌≡◌};
    ghost use Rattle.sheets.specs.Order.{stage, stage_number};

    ghost from_gives = { λ kind to. stage_number to ≡ stage kind };

    fn from(kind: Kind) -> Stage {
        match kind {
            Kind::Regions | Kind::Polygon => Stage::Subject,
            Kind::Pair => Stage::Pairs,
            Kind::Cap => Stage::Cap,
            Kind::Stop => Stage::Stop,
        }
    }
}
