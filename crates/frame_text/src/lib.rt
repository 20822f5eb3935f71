// A frame as text: a line with the grid's values and the count of triangles, and a line a triangle, with the kind in words
// behind it.
#![tactic(auto)]

ghost use Rattle.std.specs.Prelude.{◌+◌, ◌≤◌, length};
ghost use Rattle.text.specs.Inner.{Puts};
ghost use Rattle.numbers.specs.Numbers.{header_numbers, record_numbers};
ghost use Rattle.numbers.specs.Inner.{Small};
ghost use Rattle.frame_text.specs.Frame.{grid_line, kind_text, record_line};

use layout::{Header, Record};

// Puts the grid's values and the count of triangles at the start: the header's numbers but the version.
pub fn put_grid(out: &mut [u8], header: Header) -> usize
    requires { Small (header_numbers header) × (128 ≤ length out.old) }
    ensures { Puts out.old 0 (grid_line header) out.new result }
{
    let numbers = numbers::header_numbers(header);
    let behind = text::put_numbers(out, 0, &numbers[1..]);
    text::put_byte(out, behind, b'\n')
}

// Puts a record: its ten numbers, and its kind in words.
pub fn put_record(out: &mut [u8], at: usize, rec: Record) -> usize
    requires { Small (record_numbers rec) × (at + 136 ≤ length out.old) }
    ensures { Puts out.old at (record_line rec) out.new result × (result ≤ at + 136) }
{
    let numbers = numbers::record_numbers(rec);
    let behind = text::put_numbers(out, at, &numbers);
    put_kind(out, behind, rec.kind)
}

// Puts a kind in words, as a comment. A kind is a number, as the file and C callers have it, and 3 too is read, before question 7 refuses it.
fn put_kind(out: &mut [u8], at: usize, kind: u32) -> usize
    requires { at + 16 ≤ length out.old }
    ensures { Puts out.old at (kind_text kind) out.new result × (result ≤ at + 16) }
{
    match kind {
        0 => text::put_word(out, at, b"# frame\n"),
        1 => text::put_word(out, at, b"# entry gate\n"),
        2 => text::put_word(out, at, b"# exit gate\n"),
        _ => text::put_word(out, at, b"# unused\n"),
    }
}
