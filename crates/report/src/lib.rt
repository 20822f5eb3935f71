// What the programs that test print: a case's name, and then the answer in words and numbers, on standard output. Of
// those programs' code this alone takes a header and a record apart, so that a change of those structs is a change here.
#![tactic(auto)]

use demand::Finding;
use frame::Reading;
use geometry::Point;
use layout::{Header, Record};
use refusal::{Limit, Refusal};
use std::io;

// Begins the line of a case: its name and a colon.
pub fn begin(rt: &impl Print, name: &[u8]) -> io::Result<()> {
    rt.write_all(name)?;
    print!(rt; ":")
}

// Ends the line of a case.
pub fn end(rt: &impl Print) -> io::Result<()> {
    println!(rt)
}

// What reading a record answered: the header and the record, the header alone, or a refusal.
pub fn reading(rt: &impl Print, answer: Result<Reading, Limit>) -> io::Result<()> {
    match answer {
        Ok(Reading { header, found }) => {
            show_header(rt, header)?;
            match found {
                Some(record) => show_record(rt, record),
                None => print!(rt; " NO RECORD"),
            }
        }
        Err(limit) => refusal(rt, limit),
    }
}

// What a fill answered: how many cells are filled, or a refusal.
pub fn filling(rt: &impl Print, answer: Result<usize, Limit>) -> io::Result<()> {
    match answer {
        Ok(count) => print!(rt; " FILLED {count}"),
        Err(limit) => refusal(rt, limit),
    }
}

// What a route test answered: free, the leg and the cell that block it, or a refusal.
pub fn route(rt: &impl Print, answer: Result<Finding, Limit>) -> io::Result<()> {
    match answer {
        Ok(Finding::Free) => print!(rt; " FREE"),
        Ok(Finding::Blocked { leg, cell }) => print!(rt; " BLOCKED {leg} {cell}"),
        Err(limit) => refusal(rt, limit),
    }
}

// A refusal: the number of the first limit broken, and the place.
fn refusal(rt: &impl Print, limit: Limit) -> io::Result<()> {
    let Refusal { number, place } = Refusal::from(limit);
    print!(rt; " REFUSED {number} {place}")
}

// Bytes in hexadecimal, each after a space.
pub fn bytes(rt: &impl Print, s: &[u8]) -> io::Result<()> {
    for byte in s {
        print!(rt; " {byte:02x}")?;
    }
    Ok(())
}

// The header's values: version, cells, edge, origin and count.
fn show_header(rt: &impl Print, header: Header) -> io::Result<()> {
    let g = header.grid;
    print!(rt;
        " HEADER {} {} {} {} {}",
        header.version, g.nx, g.ny, g.nz, g.edge
    )?;
    show_point(rt, g.origin)?;
    print!(rt; " {}", header.count)
}

// A record's ten numbers.
fn show_record(rt: &impl Print, record: Record) -> io::Result<()> {
    print!(rt; " RECORD {}", record.kind)?;
    let t = record.triangle;
    show_point(rt, t.v0)?;
    show_point(rt, t.v1)?;
    show_point(rt, t.v2)
}

// The three numbers of a point.
fn show_point(rt: &impl Print, p: Point) -> io::Result<()> {
    print!(rt; " {} {} {}", p.x, p.y, p.z)
}
