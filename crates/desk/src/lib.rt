// The library for a program of the drawing office or of a service laptop, in C or Rust: each call's answer packed into one
// number. It is an archive of its own, so that the controller's has what runs on the controller alone.
#![tactic(auto)]

ghost use Rattle.std.specs.Prelude.{Some, ◌≡◌, ◌<◌, ◌^◌, length};
ghost use Rattle.pack.specs.Pack.{packed_count, unpacked_count};
ghost use Rattle.refusal.specs.Limit.{gives};
ghost use Rattle.service.specs.Bar.{behind};
ghost use Rattle.desk.specs.Calls.{list_writing, list_bytes, list_scanning, list_scan_bytes};
ghost use Rattle.desk.specs.Bar.{bar_roomed, packed_bar, unpacked_bar, BarLeft};
ghost use Rattle.desk.specs.Inner.{bar_list};

use refusal::Limit;
use service::Bar;
use weights::Weights;

// Writes the frame file of a grid's seven numbers and of triangles, ten numbers each. The answer is the file's length, with
// 0 in the top byte; or 1 in the top byte and the limit's number in the next.
#[unsafe(no_mangle)]
pub extern "C" fn desk_write(grid: &[i32], triangles: &[i32], out: &mut [u8]) -> u64
    ensures { (result ≡ packed_count (list_writing grid.now triangles.now (length out.old))) × (unpacked_count result ≡ list_writing grid.now triangles.now (length out.old)) × (out.new ≡ list_bytes grid.now triangles.now out.old) }
{
    if grid.len() != 7 {
        return pack::pack_limit(Limit::Unwritable);
    }
    pack::pack_count(frame_write::write(frame_write::grid_from(grid), triangles, out))
}

// Makes the frame file of a grid's seven numbers and of a scanner's file, in the PLY format. The answer is as for the writer; a refusal
// for a vertex or for a face has its number in the low 32 bits. No file below 2^32 bytes has a number that they cannot hold.
#[unsafe(no_mangle)]
pub extern "C" fn desk_scan(ply: &[u8], grid: &[i32], out: &mut [u8]) -> u64
    ensures { (result ≡ packed_count (list_scanning ply.now grid.now (length out.old))) × (length ply.now < 2 ^ 32 → unpacked_count result ≡ list_scanning ply.now grid.now (length out.old)) × (out.new ≡ list_scan_bytes ply.now grid.now out.old) }
{
    if grid.len() != 7 {
        return pack::pack_limit(Limit::Unwritable);
    }
    pack::pack_count(scan::scan(ply, frame_write::grid_from(grid), out))
}

// The bar behind a cell: the lowest triangle that reaches it. The answer is the record's number, with 0 in the top byte, and three
// weights go to the start of `weights`; or 5 in the top byte where no triangle reaches the cell; or 4 and how many numbers are wanted,
// where `weights` has not so many; or a refusal, as for the writer.
#[unsafe(no_mangle)]
pub extern "C" fn desk_bar(file: &[u8], cell: usize, weights: &mut [i64]) -> u64
    ensures { (result ≡ packed_bar (bar_roomed (behind file.now cell) (length weights.old))) × (unpacked_bar result ≡ bar_roomed (behind file.now cell) (length weights.old)) × BarLeft file.now cell (unpacked_bar result) weights.old weights.new }
{
    match service::behind(file, cell) {
        Ok(Some(bar)) => write_bar(bar, weights),
        Ok(None) => pack::pack(5, 0, 0, 0),
        Err(limit) => pack::pack_limit(limit),
    }
}

// A bar's weights into the list, where it has room for them.
fn write_bar(bar: Bar, weights: &mut [i64]) -> u64
    ensures { (result ≡ packed_bar (bar_roomed (gives (Some bar.index)) (length weights.old))) × (weights.new ≡ bar_list bar.weights weights.old) }
{
    if weights.len() < 3 {
        return pack::pack(4, 0, 0, 3);
    }
    let Weights { w0, w1, w2 } = bar.weights;
    weights[0] = w0;
    weights[1] = w1;
    weights[2] = w2;
    pack::pack(0, 0, 0, bar.index)
}
