//! The polygon with its current triangulation.
ghost use Rattle.std.specs.Prelude.{◌≡◌, true};
ghost use Rattle.polygon.specs.Rows.{Tied, set_of};
ghost use Rattle.triangulations.specs.Objects.{is_triangulation};

use super::outline::Outline;
use super::rows::Rows;

// A polygon with the triangulation that is current, as adjacency rows.
#[derive(Clone, Copy)]
pub struct Polygon {
    pub(crate) outline: Outline,
    pub(crate) rows: Rows,
    ghost whole: { is_triangulation outline.n (set_of outline.n rows.0) ≡ true },
    ghost tied: { Tied outline.n (set_of outline.n rows.0) rows.0 },
}
