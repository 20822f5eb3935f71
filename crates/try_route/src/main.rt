// The route tester: a frame file from standard input, a route's numbers as arguments; the answer to standard output.
// Where the route is blocked, the cell's place and box and the bar behind it go to standard error. An argument that is no
// number of 16 bits gives no answer: its place goes to standard error.
#![tactic(auto)]

ghost use Rattle.std.specs.Prelude.{◌≤◌, length};

use console::{Stopped, Streams};
use demand::Finding;
use std::env::Env;
use std::process::ExitCode;

// Lends the memory: one byte more than the longest file that can be accepted, the largest map, the numbers of one point
// more than a route may have, and text.
fn main(rt: HostRuntime) -> ExitCode {
    let mut file = [0u8; 65533];
    let mut map = [0u8; 32768];
    let mut numbers = [0i16; 195];
    let mut out = [0u8; 4096];
    console::status(answer(&rt, &mut file, &mut map, &mut numbers, &mut out))
}

// Reads the arguments, as many as there is room for, and the file, and tells of the route: more are refused as too many
// points are.
fn answer(
    rt: &(impl Streams + Env),
    file: &mut [u8],
    map: &mut [u8],
    numbers: &mut [i16],
    out: &mut [u8],
) -> Result<(), Stopped>
    requires { 512 ≤ length out.old }
{
    let count = console::read_arguments(rt, numbers)?;
    let len = console::read_input(rt, file)?;
    tell(rt, &file[..len], map, &numbers[..count], out)
}

// Fills the map, tests the route, and writes the answer. Where the file is refused, the test says so too.
fn tell(
    rt: &impl Streams,
    file: &[u8],
    map: &mut [u8],
    numbers: &[i16],
    out: &mut [u8],
) -> Result<(), Stopped>
    requires { 512 ≤ length out.old }
{
    let _ = fill::fill(file, map);
    match route::test_route(file, map, numbers) {
        Ok(Finding::Free) => {
            let line = text::put_free(out);
            console::send(rt, out, line)
        }
        Ok(Finding::Blocked { leg, cell }) => {
            let line = text::put_blocked(out, leg, cell);
            console::send(rt, out, line)?;
            say_bar(rt, file, cell, out);
            Ok(())
        }
        Err(limit) => {
            let line = listing::put_refusal(limit, out);
            console::refuse(rt, out, line)
        }
    }
}

// Says the bar behind a filled cell: where the cell is, the triangle that reaches it, and a point of it there.
fn say_bar(rt: &impl Streams, file: &[u8], cell: usize, out: &mut [u8])
    requires { 512 ≤ length out.old }
{
    if let Ok(Some(bar)) = service::behind(file, cell) {
        let lines = bar_line::put_behind(out, file, cell, bar);
        console::say_bytes(rt, out, lines);
    }
}
