ghost use Rattle.std.specs.Prelude.{◌≡◌, length, if◌then◌else◌, Some, None, nat_lt};
ghost use Rattle.sheets.specs.Cut.{line_length};
ghost use Rattle.sheets.specs.Order.{follows as mayFollow, stopped as isStopped};

use super::stage::Stage;
use items::Kind;

// Whether a kind of line may come after the line before: stages ascend, and only pairs repeat.
pub(crate) fn follows(last: Option<Kind>, kind: Kind) -> bool
    ensures { result ≡ mayFollow last kind }
{
    let to = Stage::from(kind);
    match last {
        None => to == Stage::Subject,
        Some(before) => {
            let from = Stage::from(before);
            from < to || (from == Stage::Pairs && to == Stage::Pairs)
        }
    }
}

// Whether the line before is the full stop.
pub(crate) fn stopped(last: Option<Kind>) -> bool
    ensures { result ≡ isStopped last }
{
    last == Some(Kind::Stop)
}

// How many bytes stand before the first line break; none where there is no break.
pub(crate) fn line_length(bytes: &[u8]) -> Option<usize>
    ensures { result ≡ (if nat_lt (line_length bytes.now) (length bytes.now) then Some (line_length bytes.now) else None) }
{
    bytes.iter().position(|b| *b == b'\n')
}
