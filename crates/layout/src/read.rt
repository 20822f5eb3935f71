// How the bit fields of a header and of records are read.
#![tactic(auto)]

ghost use Rattle.std.specs.Prelude.{◌≡◌, ◌+◌, ◌*◌, ◌/◌, ◌<◌, ◌≤◌, ◌^◌, length};
ghost use Rattle.layout.specs.Layout.{version1, record_start};
ghost use Rattle.bits.specs.Field.{field_at};
ghost use Rattle.layout.specs.Values.{record_in, kind_in, from_record};
ghost use Rattle.layout.specs.Taken.{point_in, ReadHeader};

use super::{Header, HeaderFields, Layout, Record};
use bits::{Cursor, Source};
use geometry::{Point, Triangle};
use grid::Grid;

// The layout of version 1.
pub fn version_1() -> Layout
    ensures { result ≡ version1 }
{
    Layout {
        header: 12,
        stride: 16,
        edge: 8,
        coordinate: 14,
        farthest: 8191,
    }
}

// A number of cells, stored less one in 6 bits, and the cursor behind it.
fn take_cells<S: Source>(cursor: Cursor<S>) -> (usize, Cursor<S>)
    requires { (cursor.at + 6 < 2 ^ 64) × (cursor.at / 8 < S.words cursor.source) }
    ensures value { result.0 ≡ field_at (S.bytes cursor.source) cursor.at 6 + 1 }
    ensures behind { result.1 ≡ record cursor { at = cursor.at + 6 } }
{
    let (cells, behind) = cursor.take(6);
    (cells as usize + 1, behind)
}

// The point whose x, y and z stand at the cursor, signed, `width` bits each, and the cursor behind them.
fn take_point<S: Source>(cursor: Cursor<S>, width: usize) -> (Point, Cursor<S>)
    requires { (1 ≤ width) × (width ≤ 25) × (cursor.at + 3 * width < 2 ^ 64) × ((cursor.at + 2 * width) / 8 < S.words cursor.source) }
    ensures value { result.0 ≡ point_in (S.bytes cursor.source) cursor.at width }
    ensures behind { result.1 ≡ record cursor { at = cursor.at + width + width + width } }
{
    let (x, behind_x) = cursor.take_signed(width);
    let (y, behind_y) = behind_x.take_signed(width);
    let (z, behind) = behind_y.take_signed(width);
    (Point { x, y, z }, behind)
}

// Reads the header, each field where the one before it ends.
pub fn read_header(layout: Layout, file: &[u8]) -> HeaderFields
    ensures { ReadHeader layout file.now result }
{
    let (version, behind_version) = Cursor::new(file).take(4);
    let (nx, behind_nx) = take_cells(behind_version);
    let (ny, behind_ny) = take_cells(behind_nx);
    let (nz, behind_cells) = take_cells(behind_ny);
    let (edge, behind_edge) = behind_cells.take(layout.edge);
    let (origin, behind_origin) = take_point(behind_edge, layout.coordinate);
    let (count, behind_count) = behind_origin.take(12);
    let (reserved, _) = behind_count.take(12);
    let grid = Grid {
        nx,
        ny,
        nz,
        edge: i64::from(edge),
        origin,
    };
    let header = Header {
        version,
        grid,
        count: count as usize,
    };
    HeaderFields { header, reserved }
}

// The byte at which record i begins.
pub fn record_start(layout: Layout, i: usize) -> usize
    requires { i < 4096 }
    ensures { result ≡ record_start layout i }
{
    layout.header + layout.stride * i
}

// The part of the file that starts at record i.
pub fn from_record(layout: Layout, file: &[u8], i: usize) -> &[u8]
    requires { (i < 4096) × (record_start layout i ≤ length file.now) }
    ensures { result.now ≡ from_record layout file.now i }
{
    let start = record_start(layout, i);
    &file[start..]
}

// The kind of the record at the start of `part`.
pub fn read_kind(part: &[u8]) -> u32
    ensures { result ≡ kind_in version1 part.now }
{
    let (kind, _) = Cursor::new(part).take(2);
    kind
}

// The values of the record at the start of `part`: the corners stand behind the kind's two bits. No field's four bytes go beyond a record's first 32:
// a part that has them may be read by `bits::Inside`, and no length is looked at. A fill reads all records but the last of a file so.
pub fn read_record<S: Source>(layout: Layout, part: S) -> Record
    requires { 29 ≤ S.words part }
    ensures { result ≡ record_in layout (S.bytes part) }
{
    let w = layout.coordinate;
    let (kind, behind_kind) = Cursor::new(part).take(2);
    let (v0, behind_v0) = take_point(behind_kind, w);
    let (v1, behind_v1) = take_point(behind_v0, w);
    let (v2, _) = take_point(behind_v1, w);
    let triangle = Triangle { v0, v1, v2 };
    Record { triangle, kind }
}
