// Writes a frame file from text: the text from standard input, the file to standard output. The text's eighth number says how
// many triangles there are. What the command has to know goes to standard error: how much was written, or why nothing was.
#![tactic(auto)]

ghost use Rattle.std.specs.Prelude.{◌≤◌, length};

use console::{Stopped, Streams};
use number_list::WrongWord;
use std::process::ExitCode;

// Lends the memory for the text: one byte more than the longest.
fn main(rt: HostRuntime) -> ExitCode {
    let mut text = [0u8; 1048577];
    console::status(lend(&rt, &mut text))
}

// Lends the rest: the numbers of one triangle more than a file may have, and the longest file. A call keeps the long array
// out of the proof.
fn lend(rt: &impl Streams, text: &mut [u8; 1048577]) -> Result<(), Stopped> {
    let mut numbers = [0i32; 40968];
    let mut out = [0u8; 65532];
    answer(rt, text, &mut numbers, &mut out)
}

// Reads the text, and writes the file of its numbers.
fn answer(
    rt: &impl Streams,
    text: &mut [u8],
    numbers: &mut [i32],
    out: &mut [u8],
) -> Result<(), Stopped>
    requires { 8 ≤ length numbers.old }
{
    let len = console::read_limited_input(rt, text)?;
    match number_list::read_list(&text[..len], numbers) {
        Ok(n) => write(rt, &text[..len], numbers, n, out),
        Err(WrongWord { line }) => {
            console::say(rt, format_args!("TEXT {line}"));
            Ok(())
        }
    }
}

// Writes the file of the text's n numbers, where they are as many as the eighth says. Of more than were lent all that were
// lent are taken: the writer refuses them.
fn write(
    rt: &impl Streams,
    text: &[u8],
    numbers: &[i32],
    n: usize,
    out: &mut [u8],
) -> Result<(), Stopped>
    requires { 8 ≤ length numbers.now }
{
    if n < 8 {
        console::say(rt, format_args!("FEW {n}"));
        return Ok(());
    }
    let stated = numbers[7];
    let found = n - 8;
    if !is_counted(stated, found) {
        say_miscount(rt, stated, found, last_line(text));
        return Ok(());
    }
    if !is_ended(text) {
        console::say(rt, format_args!("CUT {}", last_line(text)));
        return Ok(());
    }
    let taken = n.min(numbers.len());
    let grid = frame_write::grid_from(numbers);
    let written = frame_write::write(grid, &numbers[8..taken], out);
    console::send_frame(rt, out, written)
}

// Says the count that the text states, how many numbers stand behind it, and where the text ends.
fn say_miscount(rt: &impl Streams, stated: i32, found: usize, line: usize) {
    let mut begun = [0u8; 32];
    let word = text::put_word(&mut begun, 0, b"COUNT ");
    let behind = text::put_numbers(&mut begun, word, &[stated]);
    console::say_bytes(rt, &begun, behind);
    console::say(rt, format_args!("{found} {line}"));
}

// Has a text an end behind its last word, a space or a line feed? Else its last number may have been cut off.
fn is_ended(text: &[u8]) -> bool {
    matches!(text.last(), None | Some(b' ' | b'\n'))
}

// Are so many numbers those of `count` triangles? Each has ten.
fn is_counted(count: i32, found: usize) -> bool {
    usize::try_from(count).is_ok_and(|count| found == 10 * count)
}

// The line where a text ends, counted from 1. A line feed at its very end begins no other.
fn last_line(text: &[u8]) -> usize {
    match text.split_last() {
        Some((_, before)) => 1 + before.iter().filter(|c| **c == b'\n').count(),
        None => 1,
    }
}
