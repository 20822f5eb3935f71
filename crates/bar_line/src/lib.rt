// The bar behind a cell, as text: the answer, and lines for people: where the cell is, the triangle that reaches it, and a
// point of the triangle in the cell.
#![tactic(auto)]

ghost use Rattle.std.specs.Prelude.{Some, Ok, ◌≡◌, ◌+◌, ◌*◌, ◌^◌, ◌<◌, ◌≤◌, pos, nat_abs, ◌+ℤ◌, ◌*ℤ◌, length, ◌<ℤ◌};
ghost use Rattle.integers.specs.Within.{Within};
ghost use Rattle.geometry.specs.Bounds.{TriangleWithin};
ghost use Rattle.refusal.specs.Limit.{gives};
ghost use Rattle.grid.specs.Grid.{cell_count};
ghost use Rattle.grid.specs.Usable.{GridWithin};
ghost use Rattle.frame.specs.File.{header_of, record_of};
ghost use Rattle.text.specs.Lines.{first_most};
ghost use Rattle.text.specs.Inner.{Puts};
ghost use Rattle.numbers.specs.Numbers.{record_numbers};
ghost use Rattle.numbers.specs.Inner.{Small};
ghost use Rattle.service.specs.Bar.{behind, Shown};
ghost use Rattle.bar_line.specs.Line.{clear_line, bar_line, thousandths, total, point_numbers, steel_line, point_line, behind_lines};
ghost use Rattle.bar_line.specs.Inner.{FewWeights};

use geometry::Triangle;
use grid::Grid;
use layout::Record;
use service::Bar;
use weights::Weights;

// Puts "CLEAR" at the start.
pub fn put_clear(out: &mut [u8]) -> usize
    requires { first_most ≤ length out.old }
    ensures { Puts out.old 0 clear_line out.new result }
{
    text::put_word(out, 0, b"CLEAR\n")
}

// Puts "BAR i" at the start.
pub fn put_bar(out: &mut [u8], i: usize) -> usize
    requires { first_most ≤ length out.old }
    ensures { Puts out.old 0 (bar_line i) out.new result }
{
    let number = text::put_word(out, 0, b"BAR ");
    let behind = text::put_number(out, number, i);
    text::put_byte(out, behind, b'\n')
}

// Puts the lines for people at the start: of a cell of a file, and the bar behind it, as `service::behind` gives it. So the file is never refused, and
// has the record.
pub fn put_behind(out: &mut [u8], file: &[u8], cell: usize, bar: Bar) -> usize
    requires { (behind file.now cell ≡ gives (Some bar.index)) × Shown file.now cell (Ok (Some bar)) × (512 ≤ length out.old) }
    ensures { Puts out.old 0 (behind_lines (header_of file.now).grid cell bar.index (record_of file.now bar.index) bar.weights) out.new result }
{
    let reading = frame::read(file, bar.index).unwrap();
    put_lines(out, reading.header.grid, cell, bar, reading.found.unwrap())
}

// Puts the lines of a cell of a grid, and of a bar with its record.
fn put_lines(out: &mut [u8], g: Grid, cell: usize, bar: Bar, rec: Record) -> usize
    requires { GridWithin (2 ^ 13) (2 ^ 8) g × (cell < cell_count g) × Small (record_numbers rec) × TriangleWithin (2 ^ 13) rec.triangle × FewWeights bar.weights × (512 ≤ length out.old) }
    ensures { Puts out.old 0 (behind_lines g cell bar.index rec bar.weights) out.new result }
{
    let steel = cell_line::put_cell(out, g, cell);
    let point = put_steel(out, steel, bar.index, rec);
    put_point(out, point, rec.triangle, bar.weights)
}

// Puts "STEEL i" and the record.
fn put_steel(out: &mut [u8], at: usize, i: usize, rec: Record) -> usize
    requires { Small (record_numbers rec) × (at + 163 ≤ length out.old) }
    ensures { Puts out.old at (steel_line i rec) out.new result × (result ≤ at + 163) }
{
    let number = text::put_word(out, at, b"STEEL ");
    let behind = text::put_number(out, number, i);
    let record = text::put_byte(out, behind, b' ');
    frame_text::put_record(out, record, rec)
}

// Puts "POINT" and the weighted point of a triangle, in thousandths of a millimetre. That the weights are few is asked, and no fact of the type: a
// triangle of larger numbers has larger weights.
fn put_point(out: &mut [u8], at: usize, t: Triangle, w: Weights) -> usize
    requires { TriangleWithin (2 ^ 13) t × FewWeights w × (at + 43 ≤ length out.old) }
    ensures { Puts out.old at (point_line t w) out.new result }
{
    let first = text::put_word(out, at, b"POINT ");
    let numbers = weighted_point(t, w);
    let behind = text::put_numbers(out, first, &numbers);
    text::put_byte(out, behind, b'\n')
}

// The weighted point of a triangle, in thousandths: a list, as `text::put_numbers` takes it.
fn weighted_point(t: Triangle, w: Weights) -> [i32; 3]
    requires { TriangleWithin (2 ^ 13) t × FewWeights w }
    ensures { result ≡ point_numbers t w }
{
    let Triangle { v0, v1, v2 } = t;
    [
        point_on(v0.x, v1.x, v2.x, w),
        point_on(v0.y, v1.y, v2.y, w),
        point_on(v0.z, v1.z, v2.z, w),
    ]
}

// On an axis where the corners are at a, b and c, the weighted point in thousandths.
fn point_on(a: i64, b: i64, c: i64, w: Weights) -> i32
    requires { Within (2 ^ 13) a × Within (2 ^ 13) b × Within (2 ^ 13) c × FewWeights w }
    ensures { result ≡ thousandths (w.w0 *ℤ a +ℤ w.w1 *ℤ b +ℤ w.w2 *ℤ c) (total w) }
{
    let sum = w.w0 * a + w.w1 * b + w.w2 * c;
    thousandths(sum, w.w0 + w.w1 + w.w2) as i32
}

// n/d in thousandths, to the nearest: a half goes away from zero.
fn thousandths(n: i64, d: i64) -> i64
    requires { (pos 0 <ℤ d) × Within (2 ^ 30) d × (nat_abs n ≤ 2 ^ 13 * nat_abs d) }
    ensures { (result ≡ thousandths n d) × Within (2 ^ 24) result }
{
    let size = n.unsigned_abs();
    let parts = d.unsigned_abs();
    let nearest = ((2000 * size + parts) / (2 * parts)) as i64;
    if n < 0 { -nearest } else { nearest }
}
