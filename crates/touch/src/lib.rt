// The lowest filled cell of a block that lies in a leg's slabs: whether a leg is blocked.
#![tactic(auto)]

ghost use Rattle.std.specs.Prelude.{◌+◌, ◌*◌, ◌≤◌, length};
ghost use Rattle.grid.specs.Grid.{cell_count};
ghost use Rattle.grid.specs.Usable.{BoundedGrid};
ghost use Rattle.map.specs.Map.{map_length, is_filled};
ghost use Rattle.touch.specs.Inner.{wanted, Lowest, InGrid, NextCell};

use grid::{BoxRange, Grid};
use legs::Slabs;

// The lowest filled cell of the block that lies in the leg's slabs: by layers, rows and cells. Of a layer's rows only
// those in the slab in YZ are looked at; in a row, cells that are not filled are skipped before their slabs are asked.
pub fn search(g: Grid, map: &[u8], slabs: &Slabs, block: BoxRange) -> Option<usize>
    requires { BoundedGrid g × (map_length (cell_count g) ≤ length map.now) × InGrid g block }
    ensures { Lowest (wanted (is_filled map.now) g slabs.now block) (cell_count g) result }
{
    let x = block.x;
    let y = block.y;
    let z = block.z;
    let mut found = None;
    let mut near = y.first;
    // Left by its label at the first cell that is filled and touched: the lowest, as k, j and i rise. (A rule of the project:
    // docs/DECISIONS.md, forms.)
    'scan: for k in z.first..z.end {
        let rows = slabs.rows(y, near, k);
        near = rows.first;
        for j in rows.first..rows.end {
            let row = grid::cell_number(g.nx, g.ny, 0, j, k);
            let mut i = next_cell(map, row, x.first, x.end);
            // No `for`: the next cell is the next that is filled.
            while i < x.end {
                if slabs.touch(i, j, k) {
                    found = Some(row + i);
                    break 'scan;
                }
                i = next_cell(map, row, i + 1, x.end);
            }
        }
    }
    found
}

// The first filled cell of a row, from `first` on and below `end`, or `end`: where the search ended, so that a loop goes on from there (as in the map's own
// `next_filled`). The row's cells are numbered from `row`.
pub fn next_cell(map: &[u8], row: usize, first: usize, end: usize) -> usize
    requires { (first ≤ end) × (row + end ≤ 8 * length map.now) × (row + end ≤ 262144) }
    ensures { NextCell map.now row first end result }
{
    map::next_filled(map, row + first, row + end) - row
}
