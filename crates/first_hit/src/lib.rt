// The filled cell that a leg reaches first.
#![tactic(auto)]

ghost use Rattle.std.specs.Prelude.{◌≡◌, ◌+◌, ◌/◌, ◌%◌, ◌<◌, ◌≤◌, Some, length};
ghost use Rattle.geometry.specs.Bounds.{BoundedPoint};
ghost use Rattle.grid.specs.Grid.{cell_count};
ghost use Rattle.grid.specs.Usable.{BoundedGrid};
ghost use Rattle.map.specs.Map.{map_length, is_filled};
ghost use Rattle.runs.specs.Run.{Narrows};
ghost use Rattle.legs.specs.Slab.{row_holds};
ghost use Rattle.entry.specs.Inner.{layer_entry, row_entry, BoundedEntries};
ghost use Rattle.touch.specs.Inner.{InGrid, Lowest};
ghost use Rattle.first_hit.specs.FirstHit.{nearest, first_hit};

use entry::{Entries, Fraction};
use geometry::Point;
use grid::{BoxRange, CellRange, Grid};
use legs::Slabs;

// What the traversal of the cells along a leg goes by: a map with room for the grid's cells, the grid, the leg's block of
// cells, its slabs, and where it enters the cells.
#[derive(Clone, Copy)]
pub struct Traversal<'a> {
    pub map: &'a [u8],
    pub g: Grid,
    pub block: BoxRange,
    pub slabs: Slabs,
    pub entries: Entries,
    pub ghost grid: { BoundedGrid g },
    pub ghost room: { map_length (cell_count g) ≤ length map.now },
    pub ghost inside: { InGrid g block },
    pub ghost bounded: { BoundedEntries entries },
}

// The cell found so far, and the fraction of the leg at which it is entered.
#[derive(Clone, Copy)]
pub struct Best {
    pub cell: usize,
    pub at: Fraction,
}

// The filled cell that the leg from a to b reaches first. A leg that touches no filled cell is searched once, for the
// lowest; only where there is one it is searched again.
pub fn first_hit(g: Grid, map: &[u8], a: Point, b: Point) -> Option<usize>
    requires { BoundedGrid g × (map_length (cell_count g) ≤ length map.now) × BoundedPoint a × BoundedPoint b }
    ensures { result ≡ first_hit (is_filled map.now) g a b }
{
    let l = grid::lattice_of(g);
    let block = ranges::box_range(a, b, b, l, g.nx, g.ny, g.nz);
    let slabs = Slabs::of_leg(a, b, l);
    let lowest = touch::search(g, map, &slabs, block)?;
    let entries = Entries::of_leg(a, b, l);
    let leg = Traversal {
        map,
        g,
        block,
        slabs,
        entries,
    };
    Some(leg.search(lowest))
}

impl Traversal<'_> {
    ghost use Rattle.first_hit.specs.Inner.{sought, entered, FirstBefore, LayerOf, RowOf};

    // The cell reached first, where n is the lowest. Layers below n's have none, and a layer that the leg comes to no earlier
    // than it enters the cell found so far has none before that.
    fn search(&self, n: usize) -> usize
        requires { Lowest (sought self.now) (cell_count self.now.g) (Some n) }
        ensures { nearest (sought self.now) (entered self.now) (cell_count self.now.g) ≡ Some result }
    {
        let g = self.g;
        let y = self.block.y;
        let row = quotient(n, g.nx);
        let low = quotient(row, g.ny);
        let mut near = remainder(row, g.ny);
        let mut best = Best {
            cell: n,
            at: self.entries.at(remainder(n, g.nx), near, low),
        };
        for k in low..self.block.z.end {
            let at = self.entries.to_layer(k);
            if at.is_earlier(best.at) {
                let rows = self.slabs.rows(y, near, k);
                near = rows.first;
                best = self.search_layer(best, at, rows, k);
            }
        }
        best.cell
    }

    // Passes layer k, whose rows in the slab in YZ are `rows`. A row that the leg comes to no earlier than it enters the cell
    // found so far has none before that.
    fn search_layer(&self, old: Best, coming: Fraction, rows: CellRange, k: usize) -> Best
        requires { LayerOf self.now k × Narrows self.now.block.y (row_holds self.now.slabs k) rows × (coming ≡ layer_entry self.now.entries k) × FirstBefore self.now 0 k old }
        ensures { FirstBefore self.now 0 (k + 1) result }
    {
        let mut best = old;
        for j in rows.first..rows.end {
            let at = coming.later_by(self.entries.y, j);
            if at.is_earlier(best.at) {
                best = self.search_row(best, at, j, k);
            }
        }
        best
    }

    // Passes row j of layer k. Its cells in the slab in XY are sought from where the cell found so far stands in its row; of
    // them those that are not filled are skipped.
    fn search_row(&self, old: Best, coming: Fraction, j: usize, k: usize) -> Best
        requires { RowOf self.now j k × (coming ≡ row_entry self.now.entries j k) × FirstBefore self.now j k old }
        ensures { FirstBefore self.now (j + 1) k result }
    {
        let g = self.g;
        let cells = self.slabs.cells(self.block.x, remainder(old.cell, g.nx), j);
        let row = grid::cell_number(g.nx, g.ny, 0, j, k);
        let mut best = old;
        let mut i = touch::next_cell(self.map, row, cells.first, cells.end);
        // No `for`: the next cell is the next that is filled.
        while i < cells.end {
            if self.slabs.touch(i, j, k) {
                let at = coming.later_by(self.entries.x, i);
                best = best.or_nearer(row + i, at);
            }
            i = touch::next_cell(self.map, row, i + 1, cells.end);
        }
        best
    }
}

impl Best {
    ghost use Rattle.first_hit.specs.Inner.{nearer_of};

    // Cell n takes the place of the one found so far only where the leg enters it earlier.
    fn or_nearer(self, n: usize, at: Fraction) -> Best
        ensures { result ≡ nearer_of self n at }
    {
        if at.is_earlier(self.at) {
            Best { cell: n, at }
        } else {
            self
        }
    }
}

// n / d, by a division of 32 bits: a controller has that one in hardware.
fn quotient(n: usize, d: usize) -> usize
    requires { (n ≤ 262144) × (0 < d) × (d ≤ 64) }
    ensures { result ≡ n / d }
{
    (n as u32 / d as u32) as usize
}

// n % d, in the same way.
fn remainder(n: usize, d: usize) -> usize
    requires { (n ≤ 262144) × (0 < d) × (d ≤ 64) }
    ensures { result ≡ n % d }
{
    (n as u32 % d as u32) as usize
}
