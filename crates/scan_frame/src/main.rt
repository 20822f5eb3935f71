// Writes a frame file from a scanner's file: that from standard input, the grid's seven values as arguments, the frame file to
// standard output. What the command has to know goes to standard error: how much was written, or why nothing was. An argument
// that is no number of 32 bits gives no file: its place goes to standard error.
#![tactic(auto)]

use console::{Stopped, Streams};
use frame_write::GridValues;
use std::env::Env;
use std::process::ExitCode;

// Lends the memory for the scanner's file: one byte more than the longest.
fn main(rt: HostRuntime) -> ExitCode {
    let mut ply = [0u8; 1048577];
    console::status(lend(&rt, &mut ply))
}

// Lends the rest: the grid's values, and the longest frame file. A call keeps the long array out of the proof.
fn lend(rt: &(impl Streams + Env), ply: &mut [u8; 1048577]) -> Result<(), Stopped> {
    let mut numbers = [0i32; 7];
    let mut out = [0u8; 65532];
    console::read_all_arguments(rt, &mut numbers)?;
    answer(rt, ply, frame_write::grid_from(&numbers), &mut out)
}

// Reads the scanner's file, and writes the frame file.
fn answer(
    rt: &impl Streams,
    ply: &mut [u8],
    grid: GridValues,
    out: &mut [u8],
) -> Result<(), Stopped> {
    let len = console::read_limited_input(rt, ply)?;
    let written = scan::scan(&ply[..len], grid, out);
    console::send_frame(rt, out, written)
}
