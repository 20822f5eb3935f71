// A grid of cubic cells: the boxes of its cells, ranges of cells, a cell's number, and the points inside.
#![tactic(auto)]

ghost use Rattle.std.specs.Prelude.{◌≡◌, ◌≤◌, ◌<◌, pos, ◌+ℤ◌, ◌*ℤ◌};
ghost use Rattle.integers.specs.Within.{Within};
ghost use Rattle.geometry.specs.Bounds.{coordinate_max, step_max};
ghost use Rattle.grid.specs.Grid.{cell_count, lattice_of, inside_on, inside};
ghost use Rattle.grid.specs.Cells.{cell_number};
ghost use Rattle.grid.specs.Usable.{GridWithin};

use geometry::Point;

// nx × ny × nz cells with edge `edge`, from the point `origin` on. That its numbers are usable stands in the contracts: a file's header is read into a
// grid before it is asked.
#[derive(Clone, Copy)]
pub struct Grid {
    pub nx: usize,
    pub ny: usize,
    pub nz: usize,
    pub edge: i64,
    pub origin: Point,
}

// The boxes of a grid's cells: the lowest corner of the first, how far apart the boxes of neighbours begin, and how large a box is. `lattice_of` makes one
// of every grid, and so asks nothing: that a lattice is usable stands in the contracts of those who compute with it.
#[derive(Clone, Copy)]
pub struct Lattice {
    pub first: Point,
    pub step: i64,
    pub extent: i64,
}

// The cells of an axis from `first` on and below `end`.
#[derive(Clone, Copy)]
pub struct CellRange {
    pub first: usize,
    pub end: usize,
}

// A range of cells on each axis.
#[derive(Clone, Copy)]
pub struct BoxRange {
    pub x: CellRange,
    pub y: CellRange,
    pub z: CellRange,
}

// The boxes that are the cells themselves.
pub fn lattice_of(g: Grid) -> Lattice
    ensures { result ≡ lattice_of g }
{
    Lattice {
        first: g.origin,
        step: g.edge,
        extent: g.edge,
    }
}

// How many cells there are.
pub fn cell_count(g: Grid) -> usize
    requires { (g.nx ≤ 64) × (g.ny ≤ 64) × (g.nz ≤ 64) }
    ensures { (result ≡ cell_count g) × (result ≤ 262144) }
{
    g.nx * g.ny * g.nz
}

// The number of cell (i, j, k) in a grid with nx × ny cells in a layer.
pub fn cell_number(nx: usize, ny: usize, i: usize, j: usize, k: usize) -> usize
    requires { (nx ≤ 64) × (ny ≤ 64) × (i < 64) × (j < 64) × (k < 64) }
    ensures { result ≡ cell_number nx ny i j k }
{
    i + nx * (j + ny * k)
}

// Is the point in the grid's closed box?
pub fn is_inside(g: Grid, p: Point) -> bool
    requires { GridWithin coordinate_max step_max g }
    ensures { result ≡ inside g p }
{
    let origin = g.origin;
    inside_on(origin.x, g.nx, g.edge, p.x)
        && inside_on(origin.y, g.ny, g.edge, p.y)
        && inside_on(origin.z, g.nz, g.edge, p.z)
}

// On an axis, is the coordinate from the grid's origin to its far end, both included?
fn inside_on(origin: i64, cells: usize, edge: i64, at: i64) -> bool
    requires { Within coordinate_max origin × (cells ≤ 64) × Within step_max edge }
    ensures { result ≡ inside_on origin (pos cells *ℤ edge) at }
{
    origin <= at && at <= along(origin, cells, edge)
}

// On an axis, where cell i begins: origin + i × edge.
pub fn along(origin: i64, i: usize, edge: i64) -> i64
    requires { Within coordinate_max origin × (i ≤ 64) × Within step_max edge }
    ensures { result ≡ origin +ℤ pos i *ℤ edge }
{
    origin + i as i64 * edge
}
