// Writes frame files: from a grid's values and a list of triangles, ten numbers each.
#![tactic(auto)]

ghost use Rattle.std.specs.Prelude.{true, ◌++◌, ◌≡◌, ◌+◌, ◌*◌, ◌<◌, ◌≤◌, length, take, drop};
ghost use Rattle.refusal.specs.Limit.{said};
ghost use Rattle.refusal.specs.Inner.{passed, asked};
ghost use Rattle.layout.specs.Layout.{version1, header_fields, record_fields, record_start};
ghost use Rattle.layout_write.specs.Writing.{can_hold_all, header_bytes, record_bytes};
ghost use Rattle.writable.specs.Fits.{triangle_numbers, all_below, triangle_fits};
ghost use Rattle.frame_write.specs.Write.{grid_from, header_to_write, triangle_count, write_questions, records_bytes, file_bytes, writing, written_bytes};

use layout_write::WritableLayout;
use refusal::Limit;

// A grid's values: cells along x, y and z, cell edge, and the origin.
#[derive(Clone, Copy, Debug, PartialEq, Eq)]
pub struct GridValues {
    pub nx: i32,
    pub ny: i32,
    pub nz: i32,
    pub edge: i32,
    pub x: i32,
    pub y: i32,
    pub z: i32,
}

// The grid's values that a list begins with, in the order of the header: a caller in C lends such a list, and `write_frame` reads one.
pub fn grid_from(numbers: &[i32]) -> GridValues
    requires { 7 ≤ length numbers.now }
    ensures { result ≡ grid_from numbers.now }
{
    GridValues {
        nx: numbers[0],
        ny: numbers[1],
        nz: numbers[2],
        edge: numbers[3],
        x: numbers[4],
        y: numbers[5],
        z: numbers[6],
    }
}

// Writes the file of a grid and its triangles to the start of `out`, and answers its length, or the first limit broken.
pub fn write(grid: GridValues, triangles: &[i32], out: &mut [u8]) -> Result<usize, Limit>
    ensures { (said result ≡ writing grid triangles.now (length out.old)) × (out.new ≡ written_bytes grid triangles.now out.old) }
{
    check(layout_write::version_1(), grid, triangles, out.len())?;
    Ok(put_file(grid, triangles, out))
}

// Puts the questions in turn: the values, then the room.
fn check(
    layout: WritableLayout,
    grid: GridValues,
    triangles: &[i32],
    room: usize,
) -> Result<(), Limit>
    ensures { said result ≡ asked (write_questions layout.shape grid triangles.now room) }
{
    let count = triangles.len() / 10;
    if 4095 < count {
        return Err(Limit::Unwritable);
    }
    if !writable::header_fits(layout, &header_numbers(grid, count)) {
        return Err(Limit::Unwritable);
    }
    if triangles.len() % 10 != 0 {
        return Err(Limit::Unwritable);
    }
    if !writable::triangles_fit(layout, triangles, count) {
        return Err(Limit::Unwritable);
    }
    if room < layout::record_start(layout.shape, count) {
        return Err(Limit::ShortOutput);
    }
    Ok(())
}

// The numbers of the header that is written: a list, as the layout's fields take them.
pub fn header_numbers(grid: GridValues, count: usize) -> [i32; 10]
    requires { count < 4096 }
    ensures { result ≡ header_to_write grid count }
{
    [
        1,
        grid.nx,
        grid.ny,
        grid.nz,
        grid.edge,
        grid.x,
        grid.y,
        grid.z,
        count as i32,
        0,
    ]
}

// Writes a file that passed all questions, and answers its length.
fn put_file(grid: GridValues, triangles: &[i32], out: &mut [u8]) -> usize
    requires { asked (write_questions version1 grid triangles.now (length out.old)) ≡ passed }
    ensures { (result ≡ record_start version1 (triangle_count triangles.now)) × (out.new ≡ file_bytes version1 grid triangles.now ++ drop (record_start version1 (triangle_count triangles.now)) out.old) }
{
    let records = triangles.len() / 10;
    put_head(grid, records, out);
    put_records(triangles, records, out);
    layout::record_start(layout::version_1(), records)
}

// Writes the header of a file of `count` triangles to the start of `out`.
pub fn put_head(grid: GridValues, count: usize, out: &mut [u8])
    requires { (count < 4096) × (can_hold_all (header_fields version1) (header_to_write grid count) ≡ true) × (12 ≤ length out.old) }
    ensures { out.new ≡ header_bytes version1 (header_to_write grid count) ++ drop 12 out.old }
{
    layout_write::put_header(
        layout_write::version_1(),
        &mut out[..12],
        &header_numbers(grid, count),
    );
}

// Writes the records behind the header's place.
fn put_records(triangles: &[i32], count: usize, out: &mut [u8])
    requires { (count < 4096) × (length triangles.now ≡ count * 10) × (record_start version1 count ≤ length out.old) × (all_below (λ i. triangle_fits version1 (triangle_numbers triangles.now i)) count ≡ true) }
    ensures { out.new ≡ take 12 out.old ++ (records_bytes version1 triangles.now count ++ drop (record_start version1 count) out.old) }
{
    for i in 0..count {
        let first = i * 10;
        put_at(out, i, &triangles[first..first + 10]);
    }
}

// Writes record i from its ten numbers, at its place. The layout is known here, so that the compiler knows the place of each field,
// whoever calls.
pub fn put_at(out: &mut [u8], i: usize, numbers: &[i32])
    requires { (i < 4096) × (can_hold_all (record_fields version1) numbers.now ≡ true) × (record_start version1 i + 16 ≤ length out.old) }
    ensures { out.new ≡ take (record_start version1 i) out.old ++ (record_bytes version1 numbers.now ++ drop 16 (drop (record_start version1 i) out.old)) }
{
    let layout = layout_write::version_1();
    let start = layout::record_start(layout.shape, i);
    layout_write::put_record(layout, &mut out[start..start + 16], numbers);
}
