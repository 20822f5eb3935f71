// The map lister: a frame file from standard input, the listing of its map to standard output. The line of a refusal goes to
// standard error too, for the command that runs it.
#![tactic(auto)]

ghost use Rattle.std.specs.Prelude.{◌≤◌, length};

use console::{Stopped, Streams};
use listing::{BeginError, Rest};
use std::process::ExitCode;

// Lends the memory: one byte more than the longest file that can be accepted, the largest map, and lines to write.
fn main(rt: HostRuntime) -> ExitCode {
    let mut file = [0u8; 65533];
    let mut map = [0u8; 32768];
    let mut out = [0u8; 65536];
    console::status(answer(&rt, &mut file, &mut map, &mut out))
}

// Reads the file, and writes its listing. Nothing is written before the map is filled.
fn answer(rt: &impl Streams, file: &mut [u8], map: &mut [u8], out: &mut [u8]) -> Result<(), Stopped>
    requires { 64 ≤ length out.old }
{
    let len = console::read_input(rt, file)?;
    match listing::begin(&file[..len], map, out) {
        Ok(begun) => {
            console::send(rt, out, begun.len)?;
            list_cells(rt, map, begun.rest, out)
        }
        Err(BeginError::Refused(limit)) => {
            let line = listing::put_refusal(limit, out);
            console::refuse(rt, out, line)
        }
        Err(BeginError::ShortBuffer) => Ok(()),
    }
}

// Writes the lines of the filled cells that are left, one buffer after the other, until a write fails.
fn list_cells(rt: &impl Streams, map: &[u8], rest: Rest, out: &mut [u8]) -> Result<(), Stopped>
    requires { 64 ≤ length out.old }
{
    let mut left = Some(rest);
    while let Some(rest) = left {
        let Some(piece) = listing::more(map, rest, out) else {
            return Ok(());
        };
        console::send(rt, out, piece.len)?;
        left = piece.rest;
    }
    Ok(())
}
