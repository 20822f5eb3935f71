// The bar behind a cell: a frame file from standard input, a cell's number as the one argument; the answer to standard
// output. Where there is a bar, the cell's box, the triangle and a point of it in the cell go to standard error. An argument
// that is no number of 32 bits gives no answer: its place goes to standard error.
#![tactic(auto)]

ghost use Rattle.std.specs.Prelude.{◌≤◌, length};

use console::{Stopped, Streams};
use std::env::Env;
use std::process::ExitCode;

// Lends the memory: one byte more than the longest file that can be accepted, and text.
fn main(rt: HostRuntime) -> ExitCode {
    let mut file = [0u8; 65533];
    let mut out = [0u8; 4096];
    console::status(answer(&rt, &mut file, &mut out))
}

// Reads the argument and the file, and tells of the cell. Whether the grid has it is asked later.
fn answer(rt: &(impl Streams + Env), file: &mut [u8], out: &mut [u8]) -> Result<(), Stopped>
    requires { 512 ≤ length out.old }
{
    let mut cell = [0u32];
    console::read_all_arguments(rt, &mut cell)?;
    let len = console::read_input(rt, file)?;
    tell(rt, &file[..len], cell[0] as usize, out)
}

// Looks for the bar behind the cell, and writes the answer.
fn tell(rt: &impl Streams, file: &[u8], cell: usize, out: &mut [u8]) -> Result<(), Stopped>
    requires { 512 ≤ length out.old }
{
    match service::behind(file, cell) {
        Ok(None) => {
            let line = bar_line::put_clear(out);
            console::send(rt, out, line)
        }
        Ok(Some(bar)) => {
            let line = bar_line::put_bar(out, bar.index);
            console::send(rt, out, line)?;
            let lines = bar_line::put_behind(out, file, cell, bar);
            console::say_bytes(rt, out, lines);
            Ok(())
        }
        Err(limit) => {
            let line = listing::put_refusal(limit, out);
            console::refuse(rt, out, line)
        }
    }
}
