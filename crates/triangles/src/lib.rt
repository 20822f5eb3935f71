// A triangle filled into a map: the cells whose boxes it overlaps.
#![tactic(auto)]

ghost use Rattle.std.specs.Prelude.{length};
ghost use Rattle.geometry.specs.Bounds.{BoundedTriangle};
ghost use Rattle.ranges.specs.Range.{PicksBox};
ghost use Rattle.triangles.specs.Add.{AddsTriangle, Fillable, FillableBox};
ghost use Rattle.triangles.specs.View.{PlacedReady, PlacedAdds};

use geometry::Triangle;
use grid::{BoxRange, Grid, Lattice};
use placed::{Along, Placed};

// Fills the cells of the grid g whose boxes, those of the lattice l, the triangle overlaps.
pub fn fill_triangle(map: &mut [u8], g: Grid, l: Lattice, t: Triangle)
    requires { Fillable g l (length map.old) × BoundedTriangle t }
    ensures { AddsTriangle g l t map.old map.new }
{
    let b = ranges::box_range(t.v0, t.v1, t.v2, l, g.nx, g.ny, g.nz);
    if placed::is_empty(b) {
        return;
    }
    fill_box(map, g, l, b, t);
}

// The same, where the triangle's box of cells is not empty. Where the triangle stays within one cell on two axes, it overlaps the whole row of them.
fn fill_box(map: &mut [u8], g: Grid, l: Lattice, b: BoxRange, t: Triangle)
    requires { FillableBox g l (length map.old) b × BoundedTriangle t × PicksBox t l g.nx g.ny g.nz b }
    ensures { AddsTriangle g l t map.old map.new }
{
    let s = placed::strides(g);
    match placed::row_axis(l, b, t) {
        Some(Along::X) => columns::fill_run(
            map,
            placed::turn_strides(s),
            b.y.first,
            b.z.first,
            b.x,
        ),
        Some(Along::Y) => columns::fill_run(
            map,
            placed::turn_strides(placed::turn_strides(s)),
            b.z.first,
            b.x.first,
            b.y,
        ),
        Some(Along::Z) => columns::fill_run(map, s, b.x.first, b.y.first, b.z),
        None => fill_columns(map, g, l, b, t),
    }
}

// Fills the cells of the box that the triangle overlaps, in columns along the axis on which its normal is greatest.
fn fill_columns(map: &mut [u8], g: Grid, l: Lattice, b: BoxRange, t: Triangle)
    requires { FillableBox g l (length map.old) b × BoundedTriangle t × PicksBox t l g.nx g.ny g.nz b }
    ensures { AddsTriangle g l t map.old map.new }
{
    let p = placed::place(g, l, b, t);
    let x = p.n.x.abs();
    let y = p.n.y.abs();
    let z = p.n.z.abs();
    if y <= x && z <= x {
        fill_placed(map, placed::turned(p), l.step, l.extent);
    } else if x < y && z <= y {
        fill_placed(map, placed::turned(placed::turned(p)), l.step, l.extent);
    } else {
        fill_placed(map, p, l.step, l.extent);
    }
}

// Fills the cells of a placed triangle's box that it overlaps.
fn fill_placed(map: &mut [u8], p: Placed, step: i64, extent: i64)
    requires { PlacedReady p step extent (length map.old) }
    ensures { PlacedAdds p step extent map.old map.new }
{
    let forms = forms::triangle_forms(p.t, p.n, step, extent);
    blocks::fill_columns(map, &forms, p.s, p.b);
}
