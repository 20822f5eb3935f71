// The library for a controller's program in C or Rust: each call's answer packed into one number.
#![tactic(auto)]

ghost use Rattle.std.specs.Prelude.{Some, None, ◌++◌, ◌≡◌, length};
ghost use Rattle.refusal.specs.Limit.{gives};
ghost use Rattle.frame.specs.Questions.{reading};
ghost use Rattle.fill.specs.Fill.{filling, filled_bytes};
ghost use Rattle.steps.specs.Steps.{beginning, begun_bytes, joining, joined_bytes, ending};
ghost use Rattle.demand.specs.Route.{route_answer};
ghost use Rattle.demand.specs.Demand.{DemandOf, FirstOf};
ghost use Rattle.numbers.specs.Numbers.{header_numbers, record_numbers, read_numbers, written};
ghost use Rattle.numbers.specs.Inner.{Small};
ghost use Rattle.pack.specs.Pack.{packed_count, unpacked_count};
ghost use Rattle.stall.specs.Calls.{packed_route, unpacked_route, roomed, packed_reading, unpacked_reading};

use demand::Finding;
use layout::{Header, Record};

// The fill. The answer is the number of filled cells, with 0 in the top byte; or 1 in the top byte, the limit's number
// in the next, and the place in the low 32 bits.
#[unsafe(no_mangle)]
pub extern "C" fn stall_fill(file: &[u8], map: &mut [u8]) -> u64
    ensures { (result ≡ packed_count (filling file.now map.old)) × (unpacked_count result ≡ filling file.now map.old) × (map.new ≡ filled_bytes file.now map.old) }
{
    pack::pack_count(fill::fill(file, map))
}

// Begins a fill in steps: the map is emptied. The answer is the number of records, packed as the fill's count is.
#[unsafe(no_mangle)]
pub extern "C" fn stall_fill_begin(file: &[u8], map: &mut [u8]) -> u64
    ensures { (result ≡ packed_count (beginning file.now map.old)) × (unpacked_count result ≡ beginning file.now map.old) × (map.new ≡ begun_bytes file.now map.old) }
{
    pack::pack_count(steps::begin(file, map))
}

// A step of a fill: the cells of `count` records from number `first` on join the map. The answer is how many of these the
// file has.
#[unsafe(no_mangle)]
pub extern "C" fn stall_fill_some(file: &[u8], map: &mut [u8], first: usize, count: usize) -> u64
    ensures { (result ≡ packed_count (joining file.now map.old first count)) × (unpacked_count result ≡ joining file.now map.old first count) × (map.new ≡ joined_bytes file.now map.old first count) }
{
    pack::pack_count(steps::some(file, map, first, count))
}

// Ends a fill in steps. The answer is the number of filled cells.
#[unsafe(no_mangle)]
pub extern "C" fn stall_fill_end(file: &[u8], map: &[u8]) -> u64
    ensures { (result ≡ packed_count (ending file.now map.now)) × (unpacked_count result ≡ ending file.now map.now) }
{
    pack::pack_count(steps::end(file, map))
}

// The route test. The answer has 2 in the top byte for a free route; 3 for a blocked one, with the leg in bits 32 to 47
// and the cell that it reaches first in the low 32 bits; or it is a refusal, as for the fill.
#[unsafe(no_mangle)]
pub extern "C" fn stall_route(file: &[u8], map: &[u8], numbers: &[i16]) -> u64
    ensures { (result ≡ packed_route (route_answer file.now map.now numbers.now)) × (unpacked_route result ≡ route_answer file.now map.now numbers.now) × DemandOf file.now map.now numbers.now (unpacked_route result) × FirstOf file.now map.now numbers.now (unpacked_route result) }
{
    match route::test_route(file, map, numbers) {
        Ok(Finding::Free) => pack::pack(2, 0, 0, 0),
        Ok(Finding::Blocked { leg, cell }) => pack::pack(3, 0, leg, cell),
        Err(limit) => pack::pack_limit(limit),
    }
}

// The plain reading. The header's nine numbers go to the start of `out`, and behind them the ten of record i where there
// is one. The answer is how many went there, with 0 in the top byte; or 4 in the top byte and how many would, where `out`
// has not so many; or a refusal, as for the fill.
#[unsafe(no_mangle)]
pub extern "C" fn stall_read(file: &[u8], i: usize, out: &mut [i32]) -> u64
    ensures { (result ≡ packed_reading (roomed (reading file.now i) (length out.old))) × (unpacked_reading result out.new ≡ roomed (reading file.now i) (length out.old)) × (out.new ≡ written (read_numbers (reading file.now i)) out.old) }
{
    match frame::read(file, i) {
        Ok(reading) => match reading.found {
            Some(rec) => write_both(reading.header, rec, out),
            None => write_header(reading.header, out),
        },
        Err(limit) => pack::pack_limit(limit),
    }
}

// The header's numbers into `out`, where it has room for them.
fn write_header(header: Header, out: &mut [i32]) -> u64
    requires { Small (header_numbers header) }
    ensures { (result ≡ packed_reading (roomed (gives (record { header = header; found = None })) (length out.old))) × (out.new ≡ written (header_numbers header) out.old) }
{
    if out.len() < 9 {
        return pack::pack(4, 0, 0, 9);
    }
    numbers::copy(&numbers::header_numbers(header), out);
    pack::pack(0, 0, 0, 9)
}

// The header's numbers and a record's into `out`, where it has room for both.
fn write_both(header: Header, rec: Record, out: &mut [i32]) -> u64
    requires { Small (header_numbers header) × Small (record_numbers rec) }
    ensures { (result ≡ packed_reading (roomed (gives (record { header = header; found = Some rec })) (length out.old))) × (out.new ≡ written (header_numbers header ++ record_numbers rec) out.old) }
{
    if out.len() < 19 {
        return pack::pack(4, 0, 0, 19);
    }
    numbers::copy(&numbers::header_numbers(header), out);
    numbers::copy(&numbers::record_numbers(rec), &mut out[9..]);
    pack::pack(0, 0, 0, 19)
}
