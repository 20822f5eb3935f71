// Ranges of cells: on each axis, the cells whose boxes a triangle's box touches.
#![tactic(auto)]

ghost use Rattle.std.specs.Prelude.{[], ◌∷◌, ◌^◌, ◌<◌, pos, ◌<ℤ◌};
ghost use Rattle.integers.specs.Within.{Withins};
ghost use Rattle.std.specs.Int.{int_min, int_max};
ghost use Rattle.geometry.specs.Bounds.{BoundedTriangle};
ghost use Rattle.geometry.specs.Geometry.{triangle};
ghost use Rattle.grid.specs.Usable.{UsableLattice};
ghost use Rattle.ranges.specs.Range.{range_bounds, axis_bounds, Picks, ends_from, begins_by, Few, PicksBox};

use geometry::Point;
use grid::{BoxRange, CellRange, Lattice};

// The cells of an axis whose boxes the closed range from `least` to `greatest` touches: the box of cell i begins at origin + i × step, and
// is `extent` long. Where it touches none, the range is empty, behind the cells that begin at or before `greatest`.
fn cell_range(
    least: i64,
    greatest: i64,
    origin: i64,
    step: i64,
    extent: i64,
    cells: usize,
) -> CellRange
    requires { Withins range_bounds (least ∷ greatest ∷ origin ∷ step ∷ extent ∷ []) × (pos 0 <ℤ step) × (cells < 2 ^ 63) }
    ensures { Picks cells (ends_from least origin step extent) (begins_by greatest origin step) result }
{
    let before = integers::floor_div(origin + extent - least, step);
    let last = integers::floor_div(greatest - origin, step);
    let end = (last + 1).min(cells as i64).max(0);
    let first = (-before).max(0).min(end);
    CellRange {
        first: first as usize,
        end: end as usize,
    }
}

// The range of cells on an axis for the three corners' coordinates there.
fn axis_range(
    a0: i64,
    a1: i64,
    a2: i64,
    origin: i64,
    step: i64,
    extent: i64,
    cells: usize,
) -> CellRange
    requires { Withins axis_bounds (a0 ∷ a1 ∷ a2 ∷ origin ∷ step ∷ extent ∷ []) × (pos 0 <ℤ step) × (cells < 2 ^ 63) }
    ensures { Picks cells (ends_from (int_min (int_min a0 a1) a2) origin step extent) (begins_by (int_max (int_max a0 a1) a2) origin step) result }
{
    let least = a0.min(a1).min(a2);
    let greatest = a0.max(a1).max(a2);
    cell_range(least, greatest, origin, step, extent, cells)
}

// The cells whose box test holds for a triangle: a range on each axis, of the boxes `l` of nx × ny × nz cells. The corners come one by one: the compiler
// then draws this into both its callers.
pub fn box_range(
    v0: Point,
    v1: Point,
    v2: Point,
    l: Lattice,
    nx: usize,
    ny: usize,
    nz: usize,
) -> BoxRange
    requires { BoundedTriangle (triangle v0 v1 v2) × UsableLattice l × Few nx ny nz }
    ensures { PicksBox (triangle v0 v1 v2) l nx ny nz result }
{
    let first = l.first;
    let x = axis_range(v0.x, v1.x, v2.x, first.x, l.step, l.extent, nx);
    let y = axis_range(v0.y, v1.y, v2.y, first.y, l.step, l.extent, ny);
    let z = axis_range(v0.z, v1.z, v2.z, first.z, l.step, l.extent, nz);
    BoxRange { x, y, z }
}
