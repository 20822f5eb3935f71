// A triangle and the boxes of a grid's cells: the row of cells that it stays within, and both seen with the axes in some turn.
#![tactic(auto)]

ghost use Rattle.std.specs.Prelude.{[], ◌∷◌, ◌≡◌, ◌<◌, ◌≤◌};
ghost use Rattle.integers.specs.Within.{Withins};
ghost use Rattle.geometry.specs.Bounds.{offset_max, each, TriangleWithin, BoundedPoint, BoundedTriangle};
ghost use Rattle.geometry.specs.Geometry.{minus};
ghost use Rattle.geometry.specs.Inner.{measured_from};
ghost use Rattle.grid.specs.Usable.{UsableLattice};
ghost use Rattle.column_rule.specs.Turn.{turn_point, turn_triangle, turn_box};
ghost use Rattle.placed.specs.Numbering.{strides_of, turn_strides};
ghost use Rattle.placed.specs.Box.{is_empty, is_one, one_bounds, row_axis, Firsts};
ghost use Rattle.overlap.specs.Rule.{normal};
ghost use Rattle.forms.specs.Triangle.{component};
ghost use Rattle.placed.specs.Placed.{placed_in, turn_placed};

use columns::Strides;
use geometry::{Point, Triangle};
use grid::{BoxRange, CellRange, Grid, Lattice};

// A triangle to be filled in columns along the third axis: its corners, measured from the lowest corner of the first box, and its normal; how the
// cells are numbered, and the triangle's box of them. The axes are taken in some turn.
#[derive(Clone, Copy)]
pub struct Placed {
    pub t: Triangle,
    pub n: Point,
    pub s: Strides,
    pub b: BoxRange,
}

// The axis that a row of cells runs along.
#[derive(Clone, Copy)]
pub enum Along {
    X,
    Y,
    Z,
}

// How the cells are numbered.
pub fn strides(g: Grid) -> Strides
    requires { (g.nx ≤ 64) × (g.ny ≤ 64) }
    ensures { result ≡ strides_of g }
{
    Strides {
        su: 1,
        nu: g.nx,
        sv: g.nx,
        nv: g.ny,
        sw: g.nx * g.ny,
        nw: g.nz,
    }
}

// Has the box no cell?
pub fn is_empty(b: BoxRange) -> bool
    ensures { result ≡ is_empty b }
{
    b.x.end <= b.x.first || b.y.end <= b.y.first || b.z.end <= b.z.first
}

// The axis of a row of cells that the triangle stays within: the one on which it need not stay within one cell.
pub fn row_axis(l: Lattice, b: BoxRange, t: Triangle) -> Option<Along>
    requires { Firsts b × UsableLattice l × BoundedTriangle t }
    ensures { result ≡ row_axis l b t }
{
    let Triangle { v0, v1, v2 } = t;
    let in_x = is_one(b.x, l.first.x, l.step, l.extent, v0.x, v1.x, v2.x);
    let in_y = is_one(b.y, l.first.y, l.step, l.extent, v0.y, v1.y, v2.y);
    let in_z = is_one(b.z, l.first.z, l.step, l.extent, v0.z, v1.z, v2.z);
    match (in_x, in_y, in_z) {
        (true, true, _) => Some(Along::Z),
        (true, false, true) => Some(Along::Y),
        (false, true, true) => Some(Along::X),
        _ => None,
    }
}

// On an axis, has the range one cell, and do the three coordinates lie within its box?
fn is_one(r: CellRange, origin: i64, step: i64, extent: i64, a0: i64, a1: i64, a2: i64) -> bool
    requires { Withins one_bounds (origin ∷ step ∷ extent ∷ a0 ∷ a1 ∷ a2 ∷ []) × (r.first < 64) }
    ensures { result ≡ is_one r origin step extent a0 a1 a2 }
{
    if r.end != r.first + 1 {
        return false;
    }
    let low = origin + r.first as i64 * step;
    low <= a0.min(a1).min(a2) && a0.max(a1).max(a2) <= low + extent
}

// A triangle measured from the lowest corner of the first box, with its normal; columns along z.
pub fn place(g: Grid, l: Lattice, b: BoxRange, t: Triangle) -> Placed
    requires { (g.nx ≤ 64) × (g.ny ≤ 64) × UsableLattice l × BoundedTriangle t }
    ensures { result ≡ placed_in g l b t }
{
    let measured = measured_from(l.first, t);
    let n = normal(measured);
    let s = strides(g);
    Placed {
        t: measured,
        n,
        s,
        b,
    }
}

// The normal's component on the third axis, from the corners in the plane of two axes, number by number: as pairs they would have to be made for each.
fn component(a0: i64, b0: i64, a1: i64, b1: i64, a2: i64, b2: i64) -> i64
    requires { Withins (each offset_max 6 []) (a0 ∷ b0 ∷ a1 ∷ b1 ∷ a2 ∷ b2 ∷ []) }
    ensures { result ≡ component a0 b0 a1 b1 a2 b2 }
{
    let a = a1 - a0;
    let b = b1 - b0;
    let c = a2 - a0;
    let d = b2 - b0;
    a * d - b * c
}

// A triangle's normal.
pub fn normal(t: Triangle) -> Point
    requires { TriangleWithin offset_max t }
    ensures { result ≡ normal t }
{
    let v0 = t.v0;
    let v1 = t.v1;
    let v2 = t.v2;
    let x = component(v0.y, v0.z, v1.y, v1.z, v2.y, v2.z);
    let y = component(v0.z, v0.x, v1.z, v1.x, v2.z, v2.x);
    let z = component(v0.x, v0.y, v1.x, v1.y, v2.x, v2.y);
    Point { x, y, z }
}

// A triangle, measured from the point `origin`.
pub fn measured_from(origin: Point, t: Triangle) -> Triangle
    requires { BoundedPoint origin × BoundedTriangle t }
    ensures { result ≡ measured_from origin t }
{
    let v0 = difference(t.v0, origin);
    let v1 = difference(t.v1, origin);
    let v2 = difference(t.v2, origin);
    Triangle { v0, v1, v2 }
}

// The vector from b to a.
fn difference(a: Point, b: Point) -> Point
    requires { BoundedPoint a × BoundedPoint b }
    ensures { result ≡ minus a b }
{
    let x = a.x - b.x;
    let y = a.y - b.y;
    let z = a.z - b.z;
    Point { x, y, z }
}

// The axes taken in turn: y, z, x.
pub fn turned(p: Placed) -> Placed
    ensures { result ≡ turn_placed p }
{
    let t = turn_triangle(p.t);
    let n = turn(p.n);
    let s = turn_strides(p.s);
    let b = turn_box(p.b);
    Placed { t, n, s, b }
}

// The same, of a triangle.
fn turn_triangle(t: Triangle) -> Triangle
    ensures { result ≡ turn_triangle t }
{
    let v0 = turn(t.v0);
    let v1 = turn(t.v1);
    let v2 = turn(t.v2);
    Triangle { v0, v1, v2 }
}

// The same, of a point or a vector.
fn turn(v: Point) -> Point
    ensures { result ≡ turn_point v }
{
    Point {
        x: v.y,
        y: v.z,
        z: v.x,
    }
}

// The same, of a box of cells.
fn turn_box(b: BoxRange) -> BoxRange
    ensures { result ≡ turn_box b }
{
    let x = b.x;
    let y = b.y;
    let z = b.z;
    BoxRange { x: y, y: z, z: x }
}

// The same, of the numbering.
pub fn turn_strides(g: Strides) -> Strides
    ensures { result ≡ turn_strides g }
{
    Strides {
        su: g.sv,
        nu: g.nv,
        sv: g.sw,
        nv: g.nw,
        sw: g.su,
        nw: g.nu,
    }
}
