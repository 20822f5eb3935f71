// The overlap rule of one triangle and one box, in two parts: their boxes, and what is beyond them. A fill asks it of many boxes, by forms that are set up once.
#![tactic(auto)]

ghost use Rattle.std.specs.Prelude.{[], ◌∷◌, ◌≡◌, pos, ◌≤ℤ◌};
ghost use Rattle.integers.specs.Within.{Within, Withins};
ghost use Rattle.geometry.specs.Bounds.{offset_max, normal_max, extent_max, each, PointWithin, TriangleWithin, BoundedPoint, BoundedTriangle};
ghost use Rattle.geometry.specs.Geometry.{cube};
ghost use Rattle.column_rule.specs.Column.{forms_hold};
ghost use Rattle.box_test.specs.Inner.{boxes_hold, axis_meets, plane_meets, edge_meets, edges_meet, forms_meet, axis_bounds, edge_bounds, edges_bounds};

use geometry::{Point, Triangle};

// Do the boxes meet: that of the triangle, and the box with lowest corner p, `extent` long on each axis? They rule out most triangles, so that a caller asks for
// them first, and for the rest of the rule where they meet.
pub fn boxes_meet(t: Triangle, p: Point, extent: i64) -> bool
    requires { BoundedTriangle t × BoundedPoint p × Within extent_max extent }
    ensures { result ≡ boxes_hold t p (cube extent) }
{
    let Triangle { v0, v1, v2 } = t;
    axis_meets(v0.x, v1.x, v2.x, p.x, extent)
        && axis_meets(v0.y, v1.y, v2.y, p.y, extent)
        && axis_meets(v0.z, v1.z, v2.z, p.z, extent)
}

// What the rule asks beyond the boxes: the plane, and the edges in each plane of two axes.
pub fn beyond_boxes(t: Triangle, p: Point, extent: i64) -> bool
    requires { BoundedTriangle t × BoundedPoint p × Within extent_max extent × (pos 0 ≤ℤ extent) }
    ensures { result ≡ forms_hold t p (cube extent) }
{
    forms_meet(placed::measured_from(p, t), extent)
}

// On an axis, does the range of the corners' coordinates meet the box, from `low` to `low` + `extent`?
fn axis_meets(a0: i64, a1: i64, a2: i64, low: i64, extent: i64) -> bool
    requires { Withins axis_bounds (a0 ∷ a1 ∷ a2 ∷ low ∷ extent ∷ []) }
    ensures { result ≡ axis_meets a0 a1 a2 low extent }
{
    a0.min(a1).min(a2) <= low + extent && low <= a0.max(a1).max(a2)
}

// The same of a triangle that is measured from the box's lowest corner.
fn forms_meet(t: Triangle, extent: i64) -> bool
    requires { TriangleWithin offset_max t × Within extent_max extent }
    ensures { result ≡ forms_meet t extent }
{
    let n = placed::normal(t);
    let Triangle { v0, v1, v2 } = t;
    plane_meets(n, v0, extent)
        && edges_meet(n.z, v0.x, v0.y, v1.x, v1.y, v2.x, v2.y, extent)
        && edges_meet(n.x, v0.y, v0.z, v1.y, v1.z, v2.y, v2.z, extent)
        && edges_meet(n.y, v0.z, v0.x, v1.z, v1.x, v2.z, v2.x, extent)
}

// Does the plane with normal n through the corner v pass the box?
fn plane_meets(n: Point, v: Point, extent: i64) -> bool
    requires { PointWithin normal_max n × PointWithin offset_max v × Within extent_max extent }
    ensures { result ≡ plane_meets n v extent }
{
    let f = forms::plane_form(n, v, 0, extent);
    0 <= f.at && f.at <= f.reach
}

// In the plane of two axes, does the box reach the inner side of each edge? n is the normal's component on the third axis. The corners come number by
// number: as pairs they would have to be made for each plane.
fn edges_meet(n: i64, a0: i64, b0: i64, a1: i64, b1: i64, a2: i64, b2: i64, extent: i64) -> bool
    requires { Withins edges_bounds (n ∷ a0 ∷ b0 ∷ a1 ∷ b1 ∷ a2 ∷ b2 ∷ extent ∷ []) }
    ensures { result ≡ edges_meet n a0 b0 a1 b1 a2 b2 extent }
{
    edge_meets(n, a0, b0, a1, b1, extent)
        && edge_meets(n, a1, b1, a2, b2, extent)
        && edge_meets(n, a2, b2, a0, b0, extent)
}

// The same of the edge from the corner (va, vb) to the corner (wa, wb).
fn edge_meets(n: i64, va: i64, vb: i64, wa: i64, wb: i64, extent: i64) -> bool
    requires { Withins edge_bounds (n ∷ va ∷ vb ∷ wa ∷ wb ∷ extent ∷ []) }
    ensures { result ≡ edge_meets n va vb wa wb extent }
{
    let f = forms::edge_form(n, wa - va, wb - vb, va, vb, 0, extent);
    0 <= f.c
}
