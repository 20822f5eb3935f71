// Legs of a route: which cells of its box a leg touches. A leg from A to B is the triangle A, B, B, so that its plane
// rules out no cell, and in the plane of two axes the tests of its edges are one slab.
#![tactic(auto)]

ghost use Rattle.std.specs.Prelude.{[], ◌∷◌, ◌≡◌, ◌≤◌, pos, ◌≤ℤ◌, ◌<ℤ◌};
ghost use Rattle.integers.specs.Within.{Within, Withins};
ghost use Rattle.geometry.specs.Bounds.{index_max, BoundedPoint};
ghost use Rattle.grid.specs.Usable.{UsableLattice};
ghost use Rattle.runs.specs.Run.{Narrows};
ghost use Rattle.legs.specs.Form.{BoundedForm};
ghost use Rattle.legs.specs.Slab.{rising_slab, slab_of, slabs_of, slab_holds, slab_along, row_holds, column_holds, cell_holds, slab_bounds, ReadyRun};

use geometry::Point;
use grid::{CellRange, Lattice};
use std::marker::Model;

// In the plane of two axes, the cells at which a × i + b × j + c is from 0 to `reach`, both included.
#[derive(Clone, Copy)]
pub struct Slab {
    pub a: i64,
    pub b: i64,
    pub c: i64,
    pub reach: i64,
}

// Of every slab the form does not fall with i, and its numbers are as small as runs of cells ask.
impl Model for Slab {
    ghost use Rattle.legs.specs.Form.{Form, BoundedForm};

    ghost Value = { Form };

    ghost view = { λ s. record { a = s.a; b = s.b; c = s.c; reach = s.reach } };

    ghost invariant = { λ s. BoundedForm (record { a = s.a; b = s.b; c = s.c; reach = s.reach }) };

    ghost inverse = { λ f. record { a = f.a; b = f.b; c = f.c; reach = f.reach } };
}

// A slab in each plane: x and y, y and z, z and x.
#[derive(Clone, Copy)]
pub struct Slabs {
    pub xy: Slab,
    pub yz: Slab,
    pub zx: Slab,
}

impl Slab {
    // The slab of a form and its reach.
    pub fn new(a: i64, b: i64, c: i64, reach: i64) -> Slab
        requires { BoundedForm (record { a = a; b = b; c = c; reach = reach }) }
        ensures { result ≡ record { a = a; b = b; c = c; reach = reach } }
    {
        Slab { a, b, c, reach }
    }

    // The slab of a leg that goes by (ea, eb) from (va, vb), which is measured from the first box's corner. The leg is taken
    // in the direction in which the form does not fall with i.
    fn of_leg(ea: i64, eb: i64, va: i64, vb: i64, step: i64, extent: i64) -> Slab
        requires { Withins slab_bounds (ea ∷ eb ∷ va ∷ vb ∷ step ∷ extent ∷ []) × (pos 0 <ℤ step) }
        ensures { result ≡ slab_of ea eb va vb step extent }
    {
        if 0 < eb {
            Slab::rising(-ea, -eb, va, vb, step, extent)
        } else {
            Slab::rising(ea, eb, va, vb, step, extent)
        }
    }

    // The slab, where eb is not positive.
    fn rising(ea: i64, eb: i64, va: i64, vb: i64, step: i64, extent: i64) -> Slab
        requires { Withins slab_bounds (ea ∷ eb ∷ va ∷ vb ∷ step ∷ extent ∷ []) × (pos 0 <ℤ step) × (eb ≤ℤ pos 0) }
        ensures { result ≡ rising_slab ea eb va vb step extent }
    {
        let c = extent * (ea.max(0) - eb) - (ea * vb - eb * va);
        let reach = extent * (ea.abs() - eb);
        Slab {
            a: -(step * eb),
            b: step * ea,
            c,
            reach,
        }
    }

    // The part of a run that lies in the slab, where the number on the other axis is `at`. It is sought from `near`. What is asked of the three numbers
    // speaks of them together: `near` is in the run.
    fn narrow(&self, run: CellRange, near: usize, at: usize) -> CellRange
        requires { ReadyRun run near at }
        ensures { Narrows run (slab_along self.now at) result }
    {
        let start = self.b * at as i64 + self.c;
        runs::by_slab(run, near, self.a, start, self.reach)
    }

    // Does the cell with the numbers i and j lie in the slab?
    fn holds(&self, i: i64, j: i64) -> bool
        requires { Within index_max i × Within index_max j }
        ensures { result ≡ slab_holds self.now i j }
    {
        let x = self.a * i + self.b * j + self.c;
        x <= self.reach && 0 <= x
    }
}

impl Slabs {
    // The slabs of the leg from a to b, for the boxes of a lattice.
    pub fn of_leg(a: Point, b: Point, l: Lattice) -> Slabs
        requires { BoundedPoint a × BoundedPoint b × UsableLattice l }
        ensures { result ≡ slabs_of l a b }
    {
        let first = l.first;
        let step = l.step;
        let extent = l.extent;
        let ex = b.x - a.x;
        let ey = b.y - a.y;
        let ez = b.z - a.z;
        let x = a.x - first.x;
        let y = a.y - first.y;
        let z = a.z - first.z;
        let xy = Slab::of_leg(ex, ey, x, y, step, extent);
        let yz = Slab::of_leg(ey, ez, y, z, step, extent);
        let zx = Slab::of_leg(ez, ex, z, x, step, extent);
        Slabs { xy, yz, zx }
    }

    // Of the rows y of layer k, those that lie in the slab in YZ. They are sought from the row `near`.
    pub fn rows(&self, y: CellRange, near: usize, k: usize) -> CellRange
        requires { ReadyRun y near k }
        ensures { Narrows y (row_holds self.now k) result }
    {
        self.yz.narrow(y, near, k)
    }

    // Of the cells x of row j, those that lie in the slab in XY. They are sought from the cell `near`.
    pub fn cells(&self, x: CellRange, near: usize, j: usize) -> CellRange
        requires { ReadyRun x near j }
        ensures { Narrows x (column_holds self.now j) result }
    {
        self.xy.narrow(x, near, j)
    }

    // Does cell (i, j, k) lie in the slabs in XY and ZX? In the leg's box, and in a row that lies in the slab in YZ, nothing
    // else is left to ask.
    pub fn touch(&self, i: usize, j: usize, k: usize) -> bool
        requires { (i ≤ index_max) × (j ≤ index_max) × (k ≤ index_max) }
        ensures { result ≡ cell_holds self.now i j k }
    {
        let x = i as i64;
        let y = j as i64;
        let z = k as i64;
        self.xy.holds(x, y) && self.zx.holds(z, x)
    }
}
