// The numbers of a plain reading, as they are put out.
#![tactic(auto)]

ghost use Rattle.std.specs.Prelude.{◌++◌, ◌≡◌, ◌≤◌, length, drop};
ghost use Rattle.numbers.specs.Numbers.{header_numbers, record_numbers};
ghost use Rattle.numbers.specs.Inner.{Small};

use geometry::Triangle;
use layout::{Header, Record};

// The header's values, as they are put out: a list, as the calls for C have it. That they are small is asked, and no fact of the type: a header is read
// before it is known to be accepted.
pub fn header_numbers(header: Header) -> [i32; 9]
    requires { Small (header_numbers header) }
    ensures { result ≡ header_numbers header }
{
    let g = header.grid;
    let origin = g.origin;
    [
        header.version as i32,
        g.nx as i32,
        g.ny as i32,
        g.nz as i32,
        g.edge as i32,
        origin.x as i32,
        origin.y as i32,
        origin.z as i32,
        header.count as i32,
    ]
}

// A record's values, as they are put out: a list, as the calls for C have it.
pub fn record_numbers(rec: Record) -> [i32; 10]
    requires { Small (record_numbers rec) }
    ensures { result ≡ record_numbers rec }
{
    let Triangle { v0, v1, v2 } = rec.triangle;
    [
        rec.kind as i32,
        v0.x as i32,
        v0.y as i32,
        v0.z as i32,
        v1.x as i32,
        v1.y as i32,
        v1.z as i32,
        v2.x as i32,
        v2.y as i32,
        v2.z as i32,
    ]
}

// Copies all numbers to the start of `out`. No `copy_from_slice`, which takes addresses as numbers: `firmware/retarget` could not take the library to
// a controller.
pub fn copy(numbers: &[i32], out: &mut [i32])
    requires { length numbers.now ≤ length out.old }
    ensures { out.new ≡ numbers.now ++ drop (length numbers.now) out.old }
{
    for (i, number) in numbers.iter().enumerate() {
        out[i] = *number;
    }
}
