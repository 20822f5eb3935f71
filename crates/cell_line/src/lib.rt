// Where a cell is, as a line of text: its place along x, y and z, and its box.
#![tactic(auto)]

ghost use Rattle.std.specs.Prelude.{◌≡◌, ◌+◌, ◌≤◌, ◌<◌, ◌^◌, pos, ◌+ℤ◌, ◌*ℤ◌, length};
ghost use Rattle.integers.specs.Within.{Within};
ghost use Rattle.grid.specs.Grid.{cell_count};
ghost use Rattle.grid.specs.Usable.{GridWithin};
ghost use Rattle.text.specs.Text.{spaced};
ghost use Rattle.text.specs.Inner.{Puts};
ghost use Rattle.cell_line.specs.Line.{axis_numbers, box_line};

use grid::Grid;

// Puts "CELL" and the numbers of a cell at the start, and answers the line's length, which is at most 128.
pub fn put_cell(out: &mut [u8], g: Grid, cell: usize) -> usize
    requires { GridWithin (2 ^ 13) (2 ^ 8) g × (cell < cell_count g) × (128 ≤ length out.old) }
    ensures { Puts out.old 0 (box_line g cell) out.new result × (result ≤ 128) }
{
    let o = g.origin;
    let row = cell / g.nx;
    let first = text::put_word(out, 0, b"CELL ");
    let second = put_axis(out, first, o.x, cell % g.nx, g.edge);
    let third = put_axis(out, second, o.y, row % g.ny, g.edge);
    let behind = put_axis(out, third, o.z, row / g.ny, g.edge);
    text::put_byte(out, behind, b'\n')
}

// Puts a cell's numbers of one axis: its place i, and both ends of its box.
fn put_axis(out: &mut [u8], at: usize, origin: i64, i: usize, edge: i64) -> usize
    requires { Within (2 ^ 13) origin × (i < 64) × Within (2 ^ 8) edge × (at + 36 ≤ length out.old) }
    ensures { Puts out.old at (spaced (axis_numbers origin i edge)) out.new result × (result ≤ at + 36) }
{
    let numbers = [
        i as i32,
        end_of(origin, i, edge),
        end_of(origin, i + 1, edge),
    ];
    text::put_numbers(out, at, &numbers)
}

// Where cell i of an axis begins, which is where cell i - 1 ends.
fn end_of(origin: i64, i: usize, edge: i64) -> i32
    requires { Within (2 ^ 13) origin × (i ≤ 64) × Within (2 ^ 8) edge }
    ensures { result ≡ origin +ℤ pos i *ℤ edge }
{
    grid::along(origin, i, edge) as i32
}
