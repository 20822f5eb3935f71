// How the numbers of a header and of a record are put into bytes, field by field.
#![tactic(auto)]

ghost use Rattle.std.specs.Prelude.{true, ◌≡◌, ◌*◌, ◌≤◌, length};
ghost use Rattle.layout.specs.Layout.{version1, field, plain, less_one, signed, header_fields, record_fields};
ghost use Rattle.layout_write.specs.Writing.{can_hold_all, header_bytes, record_bytes};
ghost use Rattle.layout_write.specs.Put.{total, Puttable, PutNumber};

use bits::Pen;
use layout::Layout;

// A layout that a writer can take: headers and records fill their bytes, and a coordinate's field can hold a kind.
#[derive(Clone, Copy)]
pub struct WritableLayout {
    pub shape: Layout,
    pub ghost header_full: { total (header_fields shape) ≡ shape.header * 8 },
    pub ghost record_full: { total (record_fields shape) ≡ shape.stride * 8 },
    pub ghost kind_held: { 3 ≤ shape.coordinate },
}

// The layout of version 1.
pub fn version_1() -> WritableLayout
    ensures { result.shape ≡ version1 }
{
    WritableLayout {
        shape: layout::version_1(),
    }
}

// Puts number i of a list, as it is. Three functions, and not one over a field's form: that would ask for the form at every field. What they ask
// for speaks of a pen, the bytes, a field and a number together, so that no type of one could say it.
fn put_plain(pen: Pen, out: &mut [u8], width: usize, numbers: &[i32], i: usize) -> Pen
    requires { Puttable out.old pen (field plain width) numbers.now i }
    ensures { PutNumber out.old pen (field plain width) numbers.now i out.new result }
{
    pen.put(out, width, numbers[i] as u64)
}

// Puts number i of a list, less one.
fn put_less_one(pen: Pen, out: &mut [u8], width: usize, numbers: &[i32], i: usize) -> Pen
    requires { Puttable out.old pen (field less_one width) numbers.now i }
    ensures { PutNumber out.old pen (field less_one width) numbers.now i out.new result }
{
    pen.put(out, width, (numbers[i] - 1) as u64)
}

// Puts number i of a list, in two's complement.
fn put_signed(pen: Pen, out: &mut [u8], width: usize, numbers: &[i32], i: usize) -> Pen
    requires { Puttable out.old pen (field signed width) numbers.now i }
    ensures { PutNumber out.old pen (field signed width) numbers.now i out.new result }
{
    pen.put_signed(out, width, i64::from(numbers[i]))
}

// Writes the ten numbers of a header into its bytes.
pub fn put_header(layout: WritableLayout, out: &mut [u8], numbers: &[i32])
    requires { (can_hold_all (header_fields layout.shape) numbers.now ≡ true) × (length out.old ≡ layout.shape.header) }
    ensures { out.new ≡ header_bytes layout.shape numbers.now }
{
    let w = layout.shape.coordinate;
    let version = put_plain(Pen::new(), out, 4, numbers, 0);
    let nx = put_less_one(version, out, 6, numbers, 1);
    let ny = put_less_one(nx, out, 6, numbers, 2);
    let nz = put_less_one(ny, out, 6, numbers, 3);
    let edge = put_plain(nz, out, layout.shape.edge, numbers, 4);
    let x = put_signed(edge, out, w, numbers, 5);
    let y = put_signed(x, out, w, numbers, 6);
    let z = put_signed(y, out, w, numbers, 7);
    let count = put_plain(z, out, 12, numbers, 8);
    put_plain(count, out, 12, numbers, 9);
}

// Writes the ten numbers of a record into its bytes. The fields stand in one function, so that the compiler knows the
// place of each.
pub fn put_record(layout: WritableLayout, out: &mut [u8], numbers: &[i32])
    requires { (can_hold_all (record_fields layout.shape) numbers.now ≡ true) × (length out.old ≡ layout.shape.stride) }
    ensures { out.new ≡ record_bytes layout.shape numbers.now }
{
    let w = layout.shape.coordinate;
    let kind = put_plain(Pen::new(), out, 2, numbers, 0);
    let x0 = put_signed(kind, out, w, numbers, 1);
    let y0 = put_signed(x0, out, w, numbers, 2);
    let z0 = put_signed(y0, out, w, numbers, 3);
    let x1 = put_signed(z0, out, w, numbers, 4);
    let y1 = put_signed(x1, out, w, numbers, 5);
    let z1 = put_signed(y1, out, w, numbers, 6);
    let x2 = put_signed(z1, out, w, numbers, 7);
    let y2 = put_signed(x2, out, w, numbers, 8);
    put_signed(y2, out, w, numbers, 9);
}
