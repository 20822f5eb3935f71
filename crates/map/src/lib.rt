// The map of a grid's cells (an occupancy grid), one bit a cell, in bytes that the caller lends.
#![tactic(auto)]

ghost use Rattle.std.specs.Prelude.{◌≡◌, ◌++◌, ◌+◌, ◌*◌, ◌<◌, ◌≤◌, ◌^◌, length, drop, get_or, replicate};
ghost use Rattle.map.specs.Map.{map_length, is_filled, count_below};
ghost use Rattle.map.specs.Inner.{NextFilled, with_filled, OnesOf};

// How many bytes the map of so many cells takes.
pub fn map_length(cells: usize) -> usize
    requires { cells ≤ 262144 }
    ensures { result ≡ map_length cells }
{
    (cells + 7) / 8
}

// Whether cell n is filled. The byte is widened: a shift of a whole word is the quicker one.
pub fn is_filled(map: &[u8], n: usize) -> bool
    requires { n < 8 * length map.now }
    ensures { result ≡ is_filled map.now n }
{
    let byte = map[n / 8] as usize;
    (byte >> (7 - n % 8)) % 2 == 1
}

// The first filled cell from `first` on and below `end`, or `end`. Bytes with no filled cell are passed over.
pub fn next_filled(map: &[u8], first: usize, end: usize) -> usize
    requires { (first ≤ end) × (end ≤ 8 * length map.now) × (end ≤ 262144) }
    ensures { NextFilled map.now first end result }
{
    let mut n = first;
    // No `for` over the bytes: with one, a route whose rows are a few bytes long takes 18 % more instructions.
    while n < end {
        let byte = n / 8;
        if map[byte] != 0 {
            let cells = map[byte] & (255u8 >> (n % 8));
            if cells != 0 {
                return end.min(byte * 8 + cells.leading_zeros() as usize);
            }
        }
        n = byte * 8 + 8;
    }
    end
}

// Fills cell n.
pub fn fill_cell(map: &mut [u8], n: usize)
    requires { n < 8 * length map.old }
    ensures { map.new ≡ with_filled map.old n }
{
    let q = n / 8;
    map[q] |= 1u8 << (7 - n % 8);
}

// Empties every cell of the first len bytes.
pub fn clear(map: &mut [u8], len: usize)
    requires { len ≤ length map.old }
    ensures { map.new ≡ replicate len 0 ++ drop len map.old }
{
    map[..len].fill(0);
}

// How many of the first `cells` cells are filled: whole bytes at once, then the cells of the last byte.
pub fn count(map: &[u8], cells: usize) -> usize
    requires { cells ≤ 8 * length map.now }
    ensures { result ≡ count_below (is_filled map.now) cells }
{
    let whole = cells / 8;
    let mut sum = count_bytes(map, whole);
    for n in whole * 8..cells {
        sum += usize::from(is_filled(map, n));
    }
    sum
}

// How many cells of the first `len` bytes are filled: eight bytes at a time, then the bytes behind them.
fn count_bytes(map: &[u8], len: usize) -> usize
    requires { (len ≤ length map.now) × (len * 8 < 2 ^ 64) }
    ensures { (result ≡ count_below (is_filled map.now) (len * 8)) × (result ≤ len * 8) }
{
    let words = len / 8;
    let mut sum: usize = 0;
    for i in 0..words {
        let w = word(map, i * 8);
        if w != 0 {
            sum += w.count_ones() as usize;
        }
    }
    for k in words * 8..len {
        sum += map[k].count_ones() as usize;
    }
    sum
}

// The eight bytes from byte i on, as one number, the first lowest: it has a one for each filled cell of theirs.
fn word(map: &[u8], i: usize) -> u64
    requires { i + 8 ≤ length map.now }
    ensures { OnesOf map.now i (i + 8) result }
{
    u64::from_le_bytes([
        map[i],
        map[i + 1],
        map[i + 2],
        map[i + 3],
        map[i + 4],
        map[i + 5],
        map[i + 6],
        map[i + 7],
    ])
}
