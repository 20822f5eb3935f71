// Weights by which a triangle reaches a box: small whole numbers that anyone can check.
#![tactic(auto)]

ghost use Rattle.std.specs.Prelude.{[], ◌∷◌, ◌≡◌, ℕ, ◌+◌, ◌*◌, ◌^◌, ◌<◌};
ghost use Rattle.integers.specs.Within.{Within, Withins};
ghost use Rattle.geometry.specs.Bounds.{extent_max, normal_max, difference_max, PointWithin, TriangleWithin, BoundedPoint, BoundedTriangle};
ghost use Rattle.geometry.specs.Geometry.{cube, dot};
ghost use Rattle.reach.specs.Reaches.{ReachesBox};
ghost use Rattle.candidates.specs.Candidates.{rows, candidate};
ghost use Rattle.weights.specs.Weights.{Weighs};
ghost use Rattle.weights.specs.Inner.{side_bounds, sides_of, BoundedRows, Tells};

use geometry::{Point, Triangle};

// Weights of a triangle's corners (barycentric coordinates, up to a factor).
#[derive(Clone, Copy)]
pub struct Weights {
    pub w0: i64,
    pub w1: i64,
    pub w2: i64,
}

// The two sides of a box on an axis, as rows: how far each corner is on the inner side.
#[derive(Clone, Copy)]
struct Sides {
    low: Point,
    high: Point,
}

// The sides of a box that goes from p to p + extent on an axis, for corners at a, b and c there.
fn sides_on(a: i64, b: i64, c: i64, p: i64, extent: i64) -> Sides
    requires { Withins side_bounds (a ∷ b ∷ c ∷ p ∷ extent ∷ []) }
    ensures { result ≡ sides_of a b c p extent }
{
    let x = a - p;
    let y = b - p;
    let z = c - p;
    Sides {
        low: Point { x, y, z },
        high: Point {
            x: extent - x,
            y: extent - y,
            z: extent - z,
        },
    }
}

// The nine rows of a triangle and a cube: the weights themselves, the low sides and the high sides. There is no heap, so that they stand in an array.
fn rows(t: Triangle, p: Point, extent: i64) -> [Point; 9]
    requires { BoundedTriangle t × BoundedPoint p × Within extent_max extent }
    ensures { result ≡ rows t p (cube extent) }
{
    let x = sides_on(t.v0.x, t.v1.x, t.v2.x, p.x, extent);
    let y = sides_on(t.v0.y, t.v1.y, t.v2.y, p.y, extent);
    let z = sides_on(t.v0.z, t.v1.z, t.v2.z, p.z, extent);
    [
        Point { x: 1, y: 0, z: 0 },
        Point { x: 0, y: 1, z: 0 },
        Point { x: 0, y: 0, z: 1 },
        x.low,
        y.low,
        z.low,
        x.high,
        y.high,
        z.high,
    ]
}

// Candidate m: the weights on which two of the rows are 0, which is their cross product.
fn candidate(rows: &[Point; 9], m: usize) -> Point
    requires { BoundedRows rows.now × (m < 81) }
    ensures { result ≡ candidate rows.now m }
{
    let a = rows[m % 9];
    let b = rows[m / 9];
    Point {
        x: a.y * b.z - a.z * b.y,
        y: a.z * b.x - a.x * b.z,
        z: a.x * b.y - a.y * b.x,
    }
}

// The value of a row on weights: their dot product.
fn value(r: Point, w: Point) -> i64
    requires { PointWithin difference_max r × PointWithin normal_max w }
    ensures { result ≡ dot r w }
{
    r.x * w.x + r.y * w.y + r.z * w.z
}

// Do the weights fit: is no row negative on them, and their total positive?
fn fits(rows: &[Point; 9], w: Point) -> bool
    requires { BoundedRows rows.now × PointWithin normal_max w }
    ensures { Tells rows.now w result }
{
    for r in rows {
        if value(*r, w) < 0 {
            return false;
        }
    }
    0 < w.x + w.y + w.z
}

// Weights that show that a triangle reaches a cube: the first candidate that fits. One of the 81 does.
pub fn weigh(t: Triangle, p: Point, extent: i64) -> Weights
    requires { BoundedTriangle t × BoundedPoint p × Within extent_max extent × ReachesBox t p (cube extent) }
    ensures { (k : ℕ) → TriangleWithin (2 ^ k) t → Weighs (2 ^ (2 * k + 4)) t p (cube extent) result }
{
    let rows = rows(t, p, extent);
    for m in 0..81 {
        let w = candidate(&rows, m);
        if fits(&rows, w) {
            return Weights {
                w0: w.x,
                w1: w.y,
                w2: w.z,
            };
        }
    }
    unreachable!()
}
