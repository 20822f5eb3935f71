// The bar behind a cell: for a service tool, which triangle of a frame file reaches a cell of its grid, with weights that show where.
#![tactic(auto)]

ghost use Rattle.std.specs.Prelude.{◌≡◌, ◌<◌, pos, ◌≤ℤ◌, option_map};
ghost use Rattle.integers.specs.Within.{Within};
ghost use Rattle.geometry.specs.Bounds.{extent_max, BoundedPoint, BoundedTriangle};
ghost use Rattle.geometry.specs.Geometry.{cube};
ghost use Rattle.grid.specs.Grid.{cell_count, box_of_cell};
ghost use Rattle.grid.specs.Usable.{BoundedGrid, UsableLattice};
ghost use Rattle.frame.specs.File.{record_of};
ghost use Rattle.service.specs.Bar.{lowest, behind, said_bar, ShownAt, Shown};
ghost use Rattle.service.specs.Inner.{overlaps_record, ByBox};

use frame::Frame;
use geometry::{Point, Triangle};
use grid::{Grid, Lattice};
use refusal::Limit;
use weights::Weights;

// A bar: the number of the record whose triangle reaches a cell, and weights that show where.
#[derive(Clone, Copy)]
pub struct Bar {
    pub index: usize,
    pub weights: Weights,
}

// Puts questions 1 to 7 and 16, then looks for the lowest triangle that reaches the cell. The boxes of the cells are the cells.
pub fn behind(file: &[u8], cell: usize) -> Result<Option<Bar>, Limit>
    ensures { (said_bar result ≡ behind file.now cell) × Shown file.now cell result }
{
    let frame = Frame::check(file)?;
    let g = frame.header().grid;
    if grid::cell_count(g) <= cell {
        return Err(Limit::CellOutside);
    }
    let l = grid::lattice_of(g);
    Ok(find(&frame, corner_of(g, l, cell), l.extent))
}

// The lowest corner of a cell's box.
fn corner_of(g: Grid, l: Lattice, cell: usize) -> Point
    requires { BoundedGrid g × UsableLattice l × (cell < cell_count g) }
    ensures { result ≡ box_of_cell g l cell }
{
    let first = l.first;
    let row = cell / g.nx;
    let x = grid::along(first.x, cell % g.nx, l.step);
    let y = grid::along(first.y, row % g.ny, l.step);
    let z = grid::along(first.z, row / g.ny, l.step);
    Point { x, y, z }
}

// The lowest record whose triangle overlaps the box with lowest corner p. Weights are looked for once: for the triangle found.
fn find(frame: &Frame, p: Point, extent: i64) -> Option<Bar>
    requires { BoundedPoint p × Within extent_max extent × (pos 0 ≤ℤ extent) }
    ensures { (option_map (λ bar. bar.index) result ≡ lowest (overlaps_record frame.now.file.now p (cube extent)) frame.now.header.count) × ShownAt frame.now.file.now frame.now.header.count p (cube extent) result }
{
    for index in 0..frame.header().count {
        if overlaps(frame, index, p, extent) {
            let t = frame.one_record(index).triangle;
            return Some(Bar {
                index,
                weights: weights::weigh(t, p, extent),
            });
        }
    }
    None
}

// Does the triangle of record i overlap the box?
fn overlaps(frame: &Frame, i: usize, p: Point, extent: i64) -> bool
    requires { (i < frame.now.header.count) × BoundedPoint p × Within extent_max extent × (pos 0 ≤ℤ extent) }
    ensures { result ≡ overlaps_record frame.now.file.now p (cube extent) i }
{
    match near_record(frame, i, p, extent) {
        Some(t) => box_test::beyond_boxes(t, p, extent),
        None => false,
    }
}

// The triangle of record i, where its box meets the box. A record with another behind it is read with no look at the file's length, and no further than
// up to the axis that rules it out.
fn near_record(frame: &Frame, i: usize, p: Point, extent: i64) -> Option<Triangle>
    requires { (i < frame.now.header.count) × BoundedPoint p × Within extent_max extent }
    ensures { ByBox (record_of frame.now.file.now i).triangle p (cube extent) result }
{
    if i < frame.header().count - 1 {
        return by_box(frame.record_inside(i).triangle, p, extent);
    }
    by_box(frame.one_record(i).triangle, p, extent)
}

// A triangle, where its box meets the box.
fn by_box(t: Triangle, p: Point, extent: i64) -> Option<Triangle>
    requires { BoundedTriangle t × BoundedPoint p × Within extent_max extent }
    ensures { ByBox t p (cube extent) result }
{
    if box_test::boxes_meet(t, p, extent) {
        return Some(t);
    }
    None
}
