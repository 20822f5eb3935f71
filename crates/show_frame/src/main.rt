// Shows a frame file as text: the file from standard input, the text to standard output. What begins with # is for people.
// The line of a refusal goes to standard error too, for the command that runs it.
#![tactic(auto)]

ghost use Rattle.std.specs.Prelude.{◌+◌, ◌≤◌, length, IfOk};

use console::{Stopped, Streams};
use frame::Frame;
use std::process::ExitCode;

// Lends the memory: one byte more than the longest file that can be accepted, and text to write.
fn main(rt: HostRuntime) -> ExitCode {
    let mut file = [0u8; 65533];
    let mut out = [0u8; 65536];
    console::status(answer(&rt, &mut file, &mut out))
}

// Reads the file, and shows it, or the limit that it breaks.
fn answer(rt: &impl Streams, file: &mut [u8], out: &mut [u8]) -> Result<(), Stopped>
    requires { 256 ≤ length out.old }
{
    let len = console::read_input(rt, file)?;
    match Frame::check(&file[..len]) {
        Ok(frame) => {
            show_header(rt, &frame, out)?;
            show_records(rt, &frame, out)
        }
        Err(limit) => {
            let line = listing::put_refusal(limit, out);
            console::refuse(rt, out, line)
        }
    }
}

// Shows the grid's values and the count of triangles.
fn show_header(rt: &impl Streams, frame: &Frame<'_>, out: &mut [u8]) -> Result<(), Stopped>
    requires { 256 ≤ length out.old }
{
    let grid =
        b"# Cells along x, y and z; cell edge; origin x, y and z; triangle count. Lengths are in millimetres.\n";
    console::send(rt, grid, grid.len())?;
    let line = frame_text::put_grid(out, frame.header());
    console::send(rt, out, line)?;
    let each = b"# Of each triangle: kind; x, y and z of three corners.\n";
    console::send(rt, each, each.len())
}

// Shows the records, one buffer after the other, until a write fails.
fn show_records(rt: &impl Streams, frame: &Frame<'_>, out: &mut [u8]) -> Result<(), Stopped>
    requires { 256 ≤ length out.old }
{
    let mut at = 0;
    for i in 0..frame.header().count {
        let place = make_room(rt, out, at)?;
        at = frame_text::put_record(out, place, frame.record(i));
    }
    console::send(rt, out, at)
}

// Where the next line goes: behind the others, or at the start, where they had to be written first.
fn make_room(rt: &impl Streams, out: &[u8], at: usize) -> Result<usize, Stopped>
    requires { (at ≤ length out.now) × (136 ≤ length out.now) }
    ensures { IfOk result (λ place. place + 136 ≤ length out.now) }
{
    if 136 <= out.len() - at {
        return Ok(at);
    }
    console::send(rt, out, at)?;
    Ok(0)
}
