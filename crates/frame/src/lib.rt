// The frame file: the questions put to it, and the reading of its header and its records.
#![tactic(auto)]

ghost use Rattle.std.specs.Prelude.{◌≡◌, ◌≤◌, ◌<◌, ◌+◌, ◌^◌, length, IfOk};
ghost use Rattle.std.specs.Coded.{Coded-set};
ghost use Rattle.integers.specs.Within.{Within};
ghost use Rattle.refusal.specs.Limit.{gives, said};
ghost use Rattle.refusal.specs.Coded.{coded_answer};
ghost use Rattle.refusal.specs.Questions.{of_each};
ghost use Rattle.refusal.specs.Inner.{asked};
ghost use Rattle.grid.specs.Usable.{GridWithin};
ghost use Rattle.layout.specs.Layout.{record_start};
ghost use Rattle.layout.specs.Values.{reserved_in};
ghost use Rattle.layout.specs.Taken.{BoundedHeader};
ghost use Rattle.frame.specs.File.{record_of};
ghost use Rattle.frame.specs.Inner.{HasRecord, Followed};
ghost use Rattle.frame.specs.Questions.{axis_fits, extent_fits, header_questions, kind_question, checked, reading};

use bits::Inside;
use grid::Grid;
use layout::{Header, Layout, Record};
use refusal::Limit;

// A file that passes questions 1 to 7, with its header.
#[derive(Clone, Copy)]
pub struct Frame<'a> {
    file: &'a [u8],
    header: Header,
    pub ghost accepted: { checked file.now ≡ gives header } by { Coded-set (coded_answer header-code) _ _ },
}

impl<'a> Frame<'a> {
    ghost use Rattle.frame.specs.Frame.{said_check};

    // Puts questions 1 to 7 to a file.
    pub fn check(file: &'a [u8]) -> Result<Frame<'a>, Limit>
        ensures said { said_check result ≡ checked file.now }
        ensures same { IfOk result (λ frame. frame.file.now ≡ file.now) }
    {
        let layout = layout::version_1();
        let fields = layout::read_header(layout, file);
        let header = fields.header;
        check_header(layout, file, header, fields.reserved)?;
        check_kinds(layout, file, header.count)?;
        Ok(Frame { file, header })
    }

    // The file itself.
    pub fn file(&self) -> &'a [u8]
        ensures { result.now ≡ self.now.file.now }
    {
        self.file
    }

    // The header's values.
    pub fn header(&self) -> Header
        ensures { result ≡ self.now.header }
    {
        self.header
    }

    // Record i, for a fill.
    pub fn record(&self, i: usize) -> Record
        requires { i < self.now.header.count }
        ensures { result ≡ record_of self.now.file.now i }
    {
        record(self.file, i)
    }

    // Record i, be it the last or not: for a caller that reads one.
    pub fn one_record(&self, i: usize) -> Record
        requires { i < self.now.header.count }
        ensures { result ≡ record_of self.now.file.now i }
    {
        one_record(self.file, i)
    }

    // Record i with another behind it, as all but the last have: for a search that leaves most records after some of their fields.
    pub fn record_inside(&self, i: usize) -> Record
        requires { i + 1 < self.now.header.count }
        ensures { result ≡ record_of self.now.file.now i }
    {
        record_inside(self.file, i)
    }
}

// Record i of any bytes that have it, accepted or not, for a fill. Every record but the last has 32 bytes there, and is read with no further look at the
// length. A fill's loop is the only caller, so that the compiler draws it in, and knows each field's place.
pub fn record(file: &[u8], i: usize) -> Record
    requires { HasRecord file.now i }
    ensures { result ≡ record_of file.now i }
{
    let layout = layout::version_1();
    let part = layout::from_record(layout, file, i);
    if 32 <= part.len() {
        return layout::read_record(layout, Inside { bytes: part });
    }
    layout::read_record(layout, part)
}

// Record i of any bytes that have it, be it the last or not: for a caller that reads one.
pub fn one_record(file: &[u8], i: usize) -> Record
    requires { HasRecord file.now i }
    ensures { result ≡ record_of file.now i }
{
    let layout = layout::version_1();
    let own = layout::from_record(layout, file, i);
    layout::read_record(layout, own)
}

// The same of a record with another behind it: its 32 bytes are there, and no length is looked at at all. It is for a search that leaves most records
// after some of their fields, so that the others are not taken.
pub fn record_inside(file: &[u8], i: usize) -> Record
    requires { Followed file.now i }
    ensures { result ≡ record_of file.now i }
{
    let layout = layout::version_1();
    let bytes = layout::from_record(layout, file, i);
    layout::read_record(layout, Inside { bytes })
}

// What a plain reading gives: the header's values with a record's, or with none.
#[derive(Clone, Copy)]
pub struct Reading {
    pub header: Header,
    pub found: Option<Record>,
}

// Reads a file's header and its record i.
pub fn read(file: &[u8], i: usize) -> Result<Reading, Limit>
    ensures { said result ≡ reading file.now i }
{
    let frame = Frame::check(file)?;
    let header = frame.header();
    let found = if i < header.count {
        Some(frame.one_record(i))
    } else {
        None
    };
    Ok(Reading { header, found })
}

// On one axis, is origin + cells × edge at most the farthest coordinate?
fn axis_fits(farthest: i64, origin: i64, cells: usize, edge: i64) -> bool
    requires { Within (2 ^ 24) origin × (cells ≤ 64) × Within (2 ^ 25) edge }
    ensures { result ≡ axis_fits farthest origin cells edge }
{
    let length = cells as i64 * edge;
    let far = origin + length;
    far <= farthest
}

// Does the grid end within the farthest coordinate on every axis? A writer asks it too.
pub fn extent_fits(farthest: i64, g: Grid) -> bool
    requires { GridWithin (2 ^ 24) (2 ^ 25) g }
    ensures { result ≡ extent_fits farthest g }
{
    let origin = g.origin;
    axis_fits(farthest, origin.x, g.nx, g.edge)
        && axis_fits(farthest, origin.y, g.ny, g.edge)
        && axis_fits(farthest, origin.z, g.nz, g.edge)
}

// Questions 1 to 6, put to a file whose header has been read.
fn check_header(layout: Layout, file: &[u8], header: Header, reserved: u32) -> Result<(), Limit>
    requires { BoundedHeader header × (reserved ≡ reserved_in layout file.now) }
    ensures { said result ≡ asked (header_questions layout header file.now) }
{
    if file.len() < layout.header {
        return Err(Limit::ShortHeader);
    }
    if header.version != 1 {
        return Err(Limit::Version);
    }
    let g = header.grid;
    if g.edge <= 0 {
        return Err(Limit::ZeroEdge);
    }
    if reserved != 0 {
        return Err(Limit::ReservedBits);
    }
    if !extent_fits(layout.farthest, g) {
        return Err(Limit::Extent);
    }
    if file.len() != layout::record_start(layout, header.count) {
        return Err(Limit::FileLength);
    }
    Ok(())
}

// Question 7, put to the first `count` records, which the file has.
fn check_kinds(layout: Layout, file: &[u8], count: usize) -> Result<(), Limit>
    requires { (count < 4096) × (record_start layout count ≤ length file.now) }
    ensures { said result ≡ asked (of_each (kind_question layout file.now) count) }
{
    for i in 0..count {
        let kind = layout::read_kind(layout::from_record(layout, file, i));
        if 3 <= kind {
            return Err(Limit::UnusedKind(i));
        }
    }
    Ok(())
}
