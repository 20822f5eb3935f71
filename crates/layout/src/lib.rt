// The layout of the frame file: a header and records of bit fields, and how they are read.
#![tactic(auto)]

ghost use Rattle.std.specs.Prelude.{◌≤◌};

use geometry::Triangle;
use grid::Grid;

mod read;

pub use read::{from_record, read_header, read_kind, read_record, record_start, version_1};

// What differs between the versions of the file: lengths in bytes, widths in bits, and the farthest
// coordinate that a grid may reach. A reader can take each: lengths of at most 64 bytes, and fields of 1 to 25 bits, which a cursor takes
// at once.
#[derive(Clone, Copy)]
pub struct Layout {
    pub header: usize,
    pub stride: usize,
    pub edge: usize,
    pub coordinate: usize,
    pub farthest: i64,
    pub ghost header_most: { header ≤ 64 },
    pub ghost stride_most: { stride ≤ 64 },
    pub ghost edge_some: { 1 ≤ edge },
    pub ghost edge_most: { edge ≤ 25 },
    pub ghost coordinate_some: { 1 ≤ coordinate },
    pub ghost coordinate_most: { coordinate ≤ 25 },
}

// The header's values: the grid, and how many triangles follow.
#[derive(Clone, Copy)]
pub struct Header {
    pub version: u32,
    pub grid: Grid,
    pub count: usize,
}

// A record's values: the kind, and a triangle.
#[derive(Clone, Copy)]
pub struct Record {
    pub triangle: Triangle,
    pub kind: u32,
}

// The header's values, and its last bits, which are to be zero.
#[derive(Clone, Copy)]
pub struct HeaderFields {
    pub header: Header,
    pub reserved: u32,
}
