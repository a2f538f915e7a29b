// What a line is about, by its first byte.
#[derive(Clone, Copy, PartialEq, Eq, Debug)]
pub enum Kind {
    Regions,
    Polygon,
    Pair,
    Cap,
    Stop,
}

// A well-formed line with its numbers.
#[derive(Clone, Copy, PartialEq, Eq, Debug)]
pub enum Line {
    Regions(u32),
    Polygon(u32),
    Pair(u32, u32),
    Cap(u32),
    Stop(u32),
}

impl From<Line> for Kind {
    ghost use Rattle.std.specs.Prelude.{◌≡◌};
    ghost use Rattle.items.specs.Lines.{kind_of_line};

    ghost from_gives = { λ line kind. kind ≡ kind_of_line line };

    fn from(line: Line) -> Kind {
        match line {
            Line::Regions(_) => Kind::Regions,
            Line::Polygon(_) => Kind::Polygon,
            Line::Pair(_, _) => Kind::Pair,
            Line::Cap(_) => Kind::Cap,
            Line::Stop(_) => Kind::Stop,
        }
    }
}
