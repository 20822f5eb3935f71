// Runs the cases that standard input has as text (see words), line by line, and prints a line for each question.
//     given: HEX                  the frame file is these bytes
//     again 4094: HEX             these bytes, 4,094 times over, stand behind it
//     noise 65520:                so many pseudo-random bytes, of records of kind 0, stand behind it
//     buffer 6: aa                the lent buffer is aa six times over
//     read NAME: 0                reads the header and record 0
//     fill NAME:                  fills the buffer, and prints its bytes
//     sum NAME:                   fills the buffer, and prints a sum over its bytes
//     test NAME: 0 0 0 9 9 0      tests the route of these numbers, with the buffer as the map
//     points NAME: 2, 0 0 0 9 9 0 the same of the first 2 of 128 points by value; points that are not given are 0 0 0
//     digest NAME: ROUTE, ROUTE   fills the buffer, and prints digests of it and of the routes' answers
// A line goes by its first letter, and one that begins with # is a comment. File and buffer stay as they are until the
// next line that changes them: a fill leaves its map for the routes behind it.
#![tactic(auto)]

mod words;

ghost use Rattle.std.specs.Prelude.{◌≡◌, ◌<◌, ◌≤◌, length};

use demand::Finding;
use points::Point;
use refusal::{Limit, Refusal};
use std::io;

// Bytes at the start of a room: the frame file, or the lent buffer. The rooms are arrays: there is no heap.
#[derive(Drop)]
struct Held<'a> {
    room: &'a mut [u8],
    len: usize,
}

// Reads the cases, and runs them. The room for a file and for a map is more than the longest file and the largest map.
pub fn run(rt: &(impl Input + Print)) -> io::Result<()> {
    let mut text = room();
    let len = console::read_full(&mut rt.reader(), &mut text)?;
    let mut file = [0u8; 65536];
    let mut map = [0u8; 65536];
    run_lines(rt, &text[..len], &mut file, &mut map)
}

// Room for the text of the cases.
fn room() -> [u8; 262144]
    ensures { 262144 ≡ length result }
{
    [0; 262144]
}

// Runs each line in turn.
fn run_lines(rt: &impl Print, text: &[u8], file: &mut [u8], map: &mut [u8]) -> io::Result<()> {
    let mut file = Held { room: file, len: 0 };
    let mut map = Held { room: map, len: 0 };
    for line in text.split(|c| *c == b'\n') {
        run_line(rt, line, &mut file, &mut map)?;
    }
    Ok(())
}

// Runs a line: it changes the file or the buffer, or puts a question. A `match`, here and below, and no table of functions: each arm calls another with
// arguments of its own.
fn run_line(
    rt: &impl Print,
    line: &[u8],
    file: &mut Held<'_>,
    map: &mut Held<'_>,
) -> io::Result<()> {
    let (head, values) = words::parted(line, b':');
    let (_, name) = words::parted(head, b' ');
    let times = words::number(name);
    let (file_len, map_len) = (file.len, map.len);
    match words::letter(line) {
        b'#' => {}
        b'g' => file.len = words::put_bytes(values, 1, file.room, 0),
        b'a' => file.len = words::put_bytes(values, times, file.room, file_len),
        b'n' => file.len = put_noise(times, file.room, file_len),
        b'b' => map.len = words::put_bytes(values, times, map.room, 0),
        letter => {
            report::begin(rt, name)?;
            let lent = words::first_mut(map.room, map_len);
            ask(rt, letter, values, words::first(file.room, file_len), lent)?;
            report::end(rt)?;
        }
    }
    Ok(())
}

// Puts a question, and prints the answer.
fn ask(rt: &impl Print, letter: u8, values: &[u8], file: &[u8], map: &mut [u8]) -> io::Result<()> {
    match letter {
        b'r' => report::reading(rt, frame::read(file, words::number(values))),
        b't' => report::route(rt, answer(values, file, map)),
        b'p' => ask_points(rt, values, file, map),
        _ => ask_fill(rt, letter, values, file, map),
    }
}

// Fills the buffer, and prints the answer and what the buffer then has.
fn ask_fill(
    rt: &impl Print,
    letter: u8,
    values: &[u8],
    file: &[u8],
    map: &mut [u8],
) -> io::Result<()> {
    report::filling(rt, fill::fill(file, map))?;
    match letter {
        b'f' => report::bytes(rt, map),
        b's' => print!(rt; " SUM {}", digest(map, 31, 1000003)),
        _ => {
            print!(rt; " MAP {}", digest(map, 257, 4294967291))?;
            print!(rt; " ROUTES {}", digest_routes(values, file, map))
        }
    }
}

// What the test of a route of some numbers answers.
fn answer(values: &[u8], file: &[u8], map: &[u8]) -> Result<Finding, Limit> {
    let mut numbers = [0i16; 384];
    let count = words::put_numbers(values, &mut numbers);
    route::test_route(file, map, words::first(&numbers, count))
}

// Tests the route of the first of 128 points by value.
fn ask_points(rt: &impl Print, values: &[u8], file: &[u8], map: &[u8]) -> io::Result<()> {
    let (count, route) = words::parted(values, b',');
    let mut numbers = [0i16; 384];
    words::put_numbers(route, &mut numbers);
    report::route(
        rt,
        points::test_first_points(file, map, points_of(&numbers), words::number(count)),
    )
}

// The numbers as points, three for each.
fn points_of(numbers: &[i16; 384]) -> [Point; 128] {
    let origin = Point { x: 0, y: 0, z: 0 };
    let mut points = [origin; 128];
    for i in 0..128 {
        points[i] = point_at(numbers, 3 * i);
    }
    points
}

// The point whose numbers begin at i.
fn point_at(numbers: &[i16; 384], i: usize) -> Point
    requires { i ≤ 381 }
{
    let x = numbers[i];
    let y = numbers[i + 1];
    let z = numbers[i + 2];
    Point { x, y, z }
}

// Puts pseudo-random bytes into the file from `at` on, as far as there is room, and answers where they end.
fn put_noise(count: usize, file: &mut [u8], at: usize) -> usize {
    let stop = words::stop(at, count, file.len());
    let mut state: u64 = 1;
    for i in at..stop {
        state = (state % 2147483648 * 1103515245 + 12345) % 2147483648;
        file[i] = noise(state, i);
    }
    stop.max(at)
}

// Byte i of a file of noise: the first byte of a record has kind 0.
fn noise(state: u64, i: usize) -> u8 {
    if i % 16 == 12 {
        (state / 65536 % 64) as u8
    } else {
        (state / 65536 % 256) as u8
    }
}

// A digest of bytes: the polynomial that has them as coefficients, at `factor` and modulo `modulus`.
fn digest(s: &[u8], factor: u64, modulus: u64) -> u64
    requires { (factor ≤ 257) × (0 < modulus) × (modulus ≤ 4294967291) }
{
    let mut sum = 0;
    for byte in s {
        sum = (sum * factor + u64::from(*byte)) % modulus;
    }
    sum
}

// The digest of the answers of routes, which stand with commas between them.
fn digest_routes(routes: &[u8], file: &[u8], map: &[u8]) -> u64 {
    let mut sum = 0;
    for part in routes.split_inclusive(|c| *c == b',') {
        let (route, _) = words::parted(part, b',');
        sum = with_answer(sum, answer(route, file, map));
    }
    sum
}

// A digest with the answer of a route: a number for its case, and then its values.
fn with_answer(sum: u64, answer: Result<Finding, Limit>) -> u64 {
    match answer {
        Ok(Finding::Free) => with_numbers(sum, &[1]),
        Ok(Finding::Blocked { leg, cell }) => with_numbers(sum, &[2, leg as u64, cell as u64]),
        Err(limit) => {
            let Refusal { number, place } = Refusal::from(limit);
            with_numbers(sum, &[3, u64::from(number), place as u64])
        }
    }
}

// A digest with more numbers: a polynomial modulo 4,294,967,291.
fn with_numbers(sum: u64, numbers: &[u64]) -> u64 {
    numbers.iter().fold(
        sum,
        |sum, x| (sum % 4294967291 * 257 + *x % 4294967291) % 4294967291,
    )
}
