//! The polygon of a plan.
ghost use Rattle.std.specs.Prelude.{◌≡◌, ◌≤◌};
ghost use Rattle.sheets.specs.Settings.{fewest_corners, most_corners};
ghost use Rattle.triangulations.specs.Census as triangulations;

use polygon::Polygon;

// A plan's corners are within their range, so that there is a polygon. The type of a plan does not say so:
// it would ask more of whoever makes one.
pub(crate) fn drawn(n: u32) -> Polygon
    requires { (fewest_corners ≤ n) × (n ≤ most_corners) }
    ensures { triangulations.polygon result.outline.n ≡ triangulations.polygon n }
{
    Polygon::new(n).unwrap()
}
