// Cases as plain text. A line is a word, a name, a colon and then values:
//     test to 9 9 0: 0 0 0 9 9 0
//     again 4094: 00150014005005400500140150014005
// Values are numbers in decimal, `192x5` for 192 times the number 5, or bytes in hexadecimal with blanks between them.
ghost use Rattle.std.specs.Prelude.{◌<◌, ◌≤◌, length, IfSome};

// The first letter of a line. An empty line is taken as a comment.
pub(crate) fn letter(line: &[u8]) -> u8 {
    line.first().copied().unwrap_or(b'#')
}

// What stands before the first `mark` of a text and what behind it: all before it, where there is none.
pub(crate) fn parted(text: &[u8], mark: u8) -> (&[u8], &[u8]) {
    match text.iter().position(|c| *c == mark) {
        Some(i) => (&text[..i], &text[i + 1..]),
        None => (text, &[]),
    }
}

// Where `count` elements from `at` on end, in a slice of `len`.
pub(crate) fn stop(at: usize, count: usize, len: usize) -> usize
    ensures { result ≤ len }
{
    at.wrapping_add(count).min(len)
}

// The first n elements of a slice, or all.
pub(crate) fn first<T>(s: &[T], n: usize) -> &[T] {
    &s[..n.min(s.len())]
}

// The same, lent to be written.
pub(crate) fn first_mut<T>(s: &mut [T], n: usize) -> &mut [T] {
    let end = n.min(s.len());
    &mut s[..end]
}

// The number that the decimal digits of a text say, whatever stands between them. Numbers that no usize has are cut.
pub(crate) fn number(text: &[u8]) -> usize {
    let mut n: usize = 0;
    for c in text {
        if c.is_ascii_digit() {
            n = (n % 1844674407370955162 * 10).wrapping_add(usize::from(*c - b'0'));
        }
    }
    n
}

// The value of a hexadecimal digit in lower case.
fn digit(c: u8) -> Option<u8>
    ensures { IfSome result (λ d. d < 16) }
{
    match c {
        b'0'..=b'9' => Some(c - b'0'),
        b'a'..=b'f' => Some(c - b'a' + 10),
        _ => None,
    }
}

// Puts the bytes that hexadecimal digits say into `out` from `at` on, `times` times over, and answers where they end.
pub(crate) fn put_bytes(digits: &[u8], times: usize, out: &mut [u8], at: usize) -> usize {
    let mut end = at;
    for _ in 0..times {
        end = put_once(digits, out, end);
    }
    end
}

// Puts the bytes that hexadecimal digits say into `out` from `at` on, and answers where they end. What is no digit is
// passed over.
fn put_once(digits: &[u8], out: &mut [u8], at: usize) -> usize {
    let mut n = at.wrapping_add(at);
    for c in digits {
        if let Some(d) = digit(*c) {
            n = push(out, n, d);
        }
    }
    n / 2
}

// Puts a half of a byte at half n, the higher half first, and answers which half is next.
fn push(out: &mut [u8], n: usize, d: u8) -> usize
    requires { d < 16 }
{
    let Some(byte) = out.get_mut(n / 2) else {
        return n;
    };
    *byte = *byte % 16 * 16 + d;
    n.wrapping_add(1)
}

// Puts the numbers of a text into `out`, as far as there is room, and answers how many they are.
pub(crate) fn put_numbers(text: &[u8], out: &mut [i16]) -> usize {
    let mut count = 0;
    for word in text.split(|c| *c == b' ') {
        count = put_word(word, out, count);
    }
    count
}

// Puts the number of a word into `out` from `at` on, as often as the word says, and answers where it ends.
fn put_word(word: &[u8], out: &mut [i16], at: usize) -> usize {
    if word.is_empty() {
        return at;
    }
    match word.iter().position(|c| *c == b'x') {
        Some(x) => repeat(signed(&word[x..]), number(&word[..x]), out, at),
        None => repeat(signed(word), 1, out, at),
    }
}

// Puts a number into `out` from `at` on, `times` times over, and answers where it ends.
fn repeat(value: i16, times: usize, out: &mut [i16], at: usize) -> usize {
    let end = stop(at, times, out.len()).max(at);
    if let Some(part) = out.get_mut(at..end) {
        part.fill(value);
    }
    end
}

// The number of a word, which may have a minus sign. By hand: std's `parse` refuses a number that no 16 bits hold.
fn signed(word: &[u8]) -> i16 {
    let size = number(word) % 65536;
    if word.contains(&b'-') {
        negative(size)
    } else {
        (size % 32768) as i16
    }
}

// The negative number of a size from 1 to 32,768. One is taken off first, since the largest size is no i16.
fn negative(size: usize) -> i16
    requires { size < 65536 }
{
    let less = ((size + 32767) % 32768) as i16;
    -1 - less
}
