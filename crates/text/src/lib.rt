// The text of a listing and of other answers, into bytes that the caller lends: lines, and what they are made of, numbers in
// base ten, words and bytes. Each function answers the place behind what it puts: there is no heap, and the bytes are the caller's, so that what is put has a
// place and is no text of its own.
#![tactic(auto)]

ghost use Rattle.std.specs.Prelude.{[], ◌∷◌, ◌≡◌, ◌+◌, ◌*◌, ◌<◌, ◌≤◌, length};
ghost use Rattle.text.specs.Text.{decimal, signed_decimal, spaced};
ghost use Rattle.text.specs.Inner.{Puts};
ghost use Rattle.text.specs.Lines.{pair_line, filled_line, refused_line, free_line, blocked_line, place_line, first_most, line_most};

use itoa::Buffer;

// Puts "FILLED count OF cells" at the start.
pub fn put_filled(out: &mut [u8], count: usize, cells: usize) -> usize
    requires { first_most ≤ length out.old }
    ensures { Puts out.old 0 (filled_line count cells) out.new result }
{
    put_pair(out, b"FILLED ", count, b" OF ", cells)
}

// Puts "REFUSED number place" at the start.
pub fn put_refused(out: &mut [u8], number: usize, place: usize) -> usize
    requires { first_most ≤ length out.old }
    ensures { Puts out.old 0 (refused_line number place) out.new result }
{
    put_pair(out, b"REFUSED ", number, b" ", place)
}

// Puts "FREE" at the start.
pub fn put_free(out: &mut [u8]) -> usize
    requires { first_most ≤ length out.old }
    ensures { Puts out.old 0 free_line out.new result }
{
    put_word(out, 0, b"FREE\n")
}

// Puts "BLOCKED leg cell" at the start.
pub fn put_blocked(out: &mut [u8], leg: usize, cell: usize) -> usize
    requires { first_most ≤ length out.old }
    ensures { Puts out.old 0 (blocked_line leg cell) out.new result }
{
    put_pair(out, b"BLOCKED ", leg, b" ", cell)
}

// Puts a line of a word, a number, a second word and a second number at the start. A number has at most 20 digits.
#[tactic(auto, using(crate::proofs::Decimals::sizes))]
fn put_pair(out: &mut [u8], word: &[u8], a: usize, second: &[u8], b: usize) -> usize
    requires { (length word.now ≤ 8) × (length second.now ≤ 8) × (first_most ≤ length out.old) }
    ensures { Puts out.old 0 (pair_line word.now a second.now b) out.new result }
{
    let first = put_word(out, 0, word);
    let behind_a = put_number(out, first, a);
    let next = put_word(out, behind_a, second);
    let behind_b = put_number(out, next, b);
    put_byte(out, behind_b, b'\n')
}

// Puts "i j k".
#[tactic(auto, using(crate::proofs::Decimals::sizes))]
pub fn put_place(out: &mut [u8], at: usize, i: usize, j: usize, k: usize) -> usize
    requires { (i < 64) × (j < 64) × (k < 64) × (at + line_most ≤ length out.old) }
    ensures { Puts out.old at (place_line i j k) out.new result × (result ≤ length out.old) }
{
    let behind_i = put_number(out, at, i);
    let second = put_byte(out, behind_i, b' ');
    let behind_j = put_number(out, second, j);
    let third = put_byte(out, behind_j, b' ');
    let behind_k = put_number(out, third, k);
    put_byte(out, behind_k, b'\n')
}

// Puts numbers in base ten, each with a space behind it.
pub fn put_numbers(out: &mut [u8], at: usize, numbers: &[i32]) -> usize
    requires { at + 12 * length numbers.now ≤ length out.old }
    ensures { Puts out.old at (spaced numbers.now) out.new result × (result ≤ at + 12 * length numbers.now) }
{
    let mut end = at;
    for number in numbers {
        let behind = put_signed(out, end, *number);
        end = put_byte(out, behind, b' ');
    }
    end
}

// Puts a number in base ten, with a minus sign where it is negative.
fn put_signed(out: &mut [u8], at: usize, z: i32) -> usize
    requires { at + 11 ≤ length out.old }
    ensures { Puts out.old at (signed_decimal z) out.new result × (result ≤ at + 11) }
{
    let mut figures = Buffer::new();
    put_word(out, at, figures.format(z).as_bytes())
}

// Puts a number in base ten.
pub fn put_number(out: &mut [u8], at: usize, n: usize) -> usize
    requires { at + length (decimal n) ≤ length out.old }
    ensures { Puts out.old at (decimal n) out.new result }
{
    let mut figures = Buffer::new();
    put_word(out, at, figures.format(n).as_bytes())
}

// Puts the bytes of a word.
pub fn put_word(out: &mut [u8], at: usize, word: &[u8]) -> usize
    requires { at + length word.now ≤ length out.old }
    ensures { Puts out.old at word.now out.new result }
{
    let behind = at + word.len();
    out[at..behind].copy_from_slice(word);
    behind
}

// Puts one byte.
pub fn put_byte(out: &mut [u8], at: usize, b: u8) -> usize
    requires { at < length out.old }
    ensures { Puts out.old at (b ∷ []) out.new result }
{
    out[at] = b;
    at + 1
}
