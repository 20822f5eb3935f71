// The forms of a triangle (the set-up of Schwarz and Seidel): linear functions of a cell's numbers, whose signs decide the overlap rule. The axes are
// named u, v and w: x, y and z, or a turn of them. The forms stand in one struct, which is lent.
#![tactic(auto)]

ghost use Rattle.std.specs.Prelude.{[], ◌∷◌, ◌≡◌, ◌^◌, pos, ◌≤ℤ◌};
ghost use Rattle.integers.specs.Within.{Within, Withins};
ghost use Rattle.geometry.specs.Bounds.{offset_max, normal_max, step_max, extent_max, index_max, PointWithin, TriangleWithin};
ghost use Rattle.overlap.specs.Rule.{turned, normal};
ghost use Rattle.forms.specs.Form.{value_of, value_max, BoundedForm};
ghost use Rattle.forms.specs.Triangle.{edge_form, inside_from, edge_between, plane_form, edge_bounds, inside_bounds, EdgeReady, FormsFor};

mod bounded;

pub use bounded::Forms;
use geometry::{Point, Triangle};

// An edge in the plane of two axes: a cell with the numbers i and j there reaches the edge's inner side where a × i + b × j + c >= 0.
#[derive(Clone, Copy)]
pub struct EdgeForm {
    pub a: i64,
    pub b: i64,
    pub c: i64,
}

impl EdgeForm {
    // The form at the cells with the numbers i and j.
    pub fn at(&self, i: i64, j: i64) -> i64
        requires { BoundedForm self.now × Within index_max i × Within index_max j }
        ensures { (result ≡ value_of self.now i j) × Within value_max result }
    {
        self.a * i + self.b * j + self.c
    }
}

// An edge in the three planes; and the value of its form of uv from which on a whole square is on the inner side.
#[derive(Clone, Copy)]
pub struct Edge {
    pub uv: EdgeForm,
    pub vw: EdgeForm,
    pub wu: EdgeForm,
    pub inside: i64,
}

// A triangle's plane, turned so that it does not fall along w: it passes cell (i, j, k) where 0 <= at + u × i + v × j + w × k <= reach.
#[derive(Clone, Copy)]
pub struct PlaneForm {
    pub u: i64,
    pub v: i64,
    pub w: i64,
    pub at: i64,
    pub reach: i64,
}

// c, negated when n < 0.
fn turned(n: i64, c: i64) -> i64
    requires { Within (2 ^ 62) c }
    ensures { result ≡ turned n c }
{
    if n < 0 { -c } else { c }
}

// The edge (ea, eb) from the corner (va, vb), where n is the normal's component on the third axis.
pub fn edge_form(n: i64, ea: i64, eb: i64, va: i64, vb: i64, step: i64, extent: i64) -> EdgeForm
    requires { Withins edge_bounds (ea ∷ eb ∷ va ∷ vb ∷ step ∷ extent ∷ []) }
    ensures { result ≡ edge_form n ea eb va vb step extent }
{
    let ma = turned(n, -eb);
    let mb = turned(n, ea);
    let up_a = ma.max(0);
    let up_b = mb.max(0);
    let c = extent * (up_a + up_b) - (ma * va + mb * vb);
    EdgeForm {
        a: step * ma,
        b: step * mb,
        c,
    }
}

// The value from which on a square is inside of the edge (ea, eb). More than any, where the normal is 0 on w: there no edge is left out.
// It is a number then too, and no Option: a caller compares it with a form's value, and that one comparison says never.
fn inside_from(n: i64, ea: i64, eb: i64, extent: i64) -> i64
    requires { Withins inside_bounds (n ∷ ea ∷ eb ∷ extent ∷ []) }
    ensures { result ≡ inside_from n ea eb extent }
{
    let steep = n.abs();
    if steep <= 0 {
        return 4611686018427387904;
    }
    let a = ea.abs();
    let b = eb.abs();
    extent * (a + b)
}

// The edge from one corner to the next, where n is the normal.
fn edge_between(n: Point, from: Point, to: Point, step: i64, extent: i64) -> Edge
    requires { EdgeReady n from to step extent }
    ensures { result ≡ edge_between n from to step extent }
{
    let px = from.x;
    let py = from.y;
    let pz = from.z;
    let x = to.x - px;
    let y = to.y - py;
    let z = to.z - pz;
    let uv = edge_form(n.z, x, y, px, py, step, extent);
    let vw = edge_form(n.x, y, z, py, pz, step, extent);
    let wu = edge_form(n.y, z, x, pz, px, step, extent);
    let inside = inside_from(n.z, x, y, extent);
    Edge { uv, vw, wu, inside }
}

// The plane with normal n through the corner v, turned so that it does not fall along w.
pub fn plane_form(n: Point, v: Point, step: i64, extent: i64) -> PlaneForm
    requires { PointWithin normal_max n × PointWithin offset_max v × Within step_max step × Within extent_max extent }
    ensures { result ≡ plane_form n v step extent }
{
    let Point { x, y, z } = v;
    let mx = turned(n.z, n.x);
    let my = turned(n.z, n.y);
    let mz = turned(n.z, n.z);
    let up_x = mx.max(0);
    let up_y = my.max(0);
    let size_x = mx.abs();
    let size_y = my.abs();
    let at = extent * (up_x + up_y + mz) - (mx * x + my * y + mz * z);
    let reach = extent * (size_x + size_y + mz);
    PlaneForm {
        u: step * mx,
        v: step * my,
        w: step * mz,
        at,
        reach,
    }
}

// The forms of a triangle with normal n. The corners are measured from the lowest corner of the lattice's first box.
pub fn triangle_forms(t: Triangle, n: Point, step: i64, extent: i64) -> Forms
    requires { TriangleWithin offset_max t × (n ≡ normal t) × Within step_max step × (pos 0 ≤ℤ step) × Within extent_max extent }
    ensures { FormsFor t step extent result }
{
    let v0 = t.v0;
    let v1 = t.v1;
    let v2 = t.v2;
    let plane = plane_form(n, v0, step, extent);
    let e0 = edge_between(n, v0, v1, step, extent);
    let e1 = edge_between(n, v1, v2, step, extent);
    let e2 = edge_between(n, v2, v0, step, extent);
    Forms {
        edges: [e0, e1, e2],
        plane,
    }
}
