// Columns of a grid's cells: the cells of a column that pass a triangle's forms are filled.
#![tactic(auto)]

ghost use Rattle.std.specs.Prelude.{◌≡◌, ◌*◌, ◌<◌, ◌≤◌, length, pos};
ghost use Rattle.forms.specs.Form.{BoundedEdge, BoundedPlane};
ghost use Rattle.runs.specs.Run.{Narrows};
ghost use Rattle.column_rule.specs.Column.{plane_passes, edge_passes, square_passes};
ghost use Rattle.columns.specs.Draw.{Draws, one_column, row_of, rectangle, in_run, RunReady};
ghost use Rattle.columns.specs.Column.{run_cells, RunIn, ColumnsReady, RowsIn, DrawsColumns};

mod ready;

use forms::{Edge, PlaneForm};
use grid::CellRange;
pub use ready::Columns;

// How a grid's cells are numbered, with its axes in some turn: how far apart the numbers of neighbours on each axis are, and how many cells
// there are.
#[derive(Clone, Copy)]
pub struct Strides {
    pub su: usize,
    pub nu: usize,
    pub sv: usize,
    pub nv: usize,
    pub sw: usize,
    pub nw: usize,
}

// Fills the cells of a run of column (i, j).
pub fn fill_run(map: &mut [u8], g: Strides, i: usize, j: usize, run: CellRange)
    requires { RunReady g (length map.old) i j run }
    ensures { Draws g (one_column i j) (in_run run) map.old map.new }
{
    let base = g.su * i + g.sv * j;
    for k in run.first..run.end {
        map::fill_cell(map, base + g.sw * k);
    }
}

// The part of a run of column (u, v) that an edge passes, where x is its form of uv there: all, where the column's square is inside of the edge.
fn edge_run(run: CellRange, e: &Edge, u: i64, v: i64, x: i64) -> CellRange
    requires { BoundedEdge e.now × RunIn run u v }
    ensures { Narrows run (edge_passes e.now u v x) result }
{
    if e.inside <= x {
        return run;
    }
    let half = runs::by_form(run, e.vw.b, e.vw.a * v + e.vw.c);
    runs::by_form(half, e.wu.a, e.wu.b * u + e.wu.c)
}

// The part of column (u, v) that the plane passes.
fn plane_run(p: &PlaneForm, w: CellRange, hint: usize, u: i64, v: i64) -> CellRange
    requires { BoundedPlane p.now × RunIn w u v × (w.first ≤ hint) × (hint ≤ w.end) }
    ensures { Narrows w (plane_passes p.now u v) result }
{
    runs::by_slab(w, hint, p.w, p.at + p.u * u + p.v * v, p.reach)
}

// Does no edge rule out the column's square?
fn square_passes(x0: i64, x1: i64, x2: i64) -> bool
    ensures { result ≡ square_passes x0 x1 x2 }
{
    0 <= x0 && 0 <= x1 && 0 <= x2
}

impl<'a> Columns<'a> {
    // What is asked here and below speaks of the lent map's length and of the hint, which are not the columns' own.
    // Fills the cells of column (i, j), where x0, x1 and x2 are the edges' forms of uv there, none negative (names are plainer than places in an array).
    // The answer is a hint for the next column: the first cell that the plane passes.
    fn column(
        &self,
        map: &mut [u8],
        i: usize,
        j: usize,
        x0: i64,
        x1: i64,
        x2: i64,
        hint: usize,
    ) -> usize
        requires { ColumnsReady self.now (length map.old) hint × (i < self.now.g.nu) × (j < self.now.g.nv) }
        ensures { Draws self.now.g (one_column i j) (run_cells self.now.forms.now self.now.w (pos i) (pos j) x0 x1 x2) map.old map.new × (self.now.w.first ≤ result) × (result ≤ self.now.w.end) }
    {
        let u = i as i64;
        let v = j as i64;
        let edges = &self.forms.edges;
        let plane = plane_run(&self.forms.plane, self.w, hint, u, v);
        let r0 = edge_run(plane, &edges[0], u, v, x0);
        let r1 = edge_run(r0, &edges[1], u, v, x1);
        let r2 = edge_run(r1, &edges[2], u, v, x2);
        fill_run(map, self.g, i, j, r2);
        plane.first
    }

    // Fills the columns of row j from u.first on and below u.end. The edges' forms are stepped from column to column.
    fn scan_row(&self, map: &mut [u8], u: CellRange, j: usize, hint: usize) -> usize
        requires { ColumnsReady self.now (length map.old) hint × RowsIn u self.now.g.nu × (j < self.now.g.nv) }
        ensures { DrawsColumns self.now (row_of u j) map.old map.new result }
    {
        let edges = &self.forms.edges;
        let p = u.first as i64;
        let q = j as i64;
        let mut x0 = edges[0].uv.at(p, q);
        let mut x1 = edges[1].uv.at(p, q);
        let mut x2 = edges[2].uv.at(p, q);
        let mut near = hint;
        for a in u.first..u.end {
            if square_passes(x0, x1, x2) {
                near = self.column(map, a, j, x0, x1, x2, near);
            }
            x0 += edges[0].uv.a;
            x1 += edges[1].uv.a;
            x2 += edges[2].uv.a;
        }
        near
    }

    // Fills the columns of a rectangle, row by row. The answer is a hint for the next.
    pub fn scan(&self, map: &mut [u8], u: CellRange, v: CellRange, hint: usize) -> usize
        requires { ColumnsReady self.now (length map.old) hint × RowsIn u self.now.g.nu × RowsIn v self.now.g.nv }
        ensures { DrawsColumns self.now (rectangle u v) map.old map.new result }
    {
        let mut near = hint;
        for j in v.first..v.end {
            near = self.scan_row(map, u, j, near);
        }
        near
    }
}
