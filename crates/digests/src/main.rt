// Fills 200 pseudo-random frames, tests routes on their maps, and prints a line for each: the fill's answer, a digest of
// the lent buffer and a digest of the routes' answers. The cases, and what is to be printed, came from a version in Rust
// that was made apart: `compare cases` and `compare digest` of rust/compare print them.
#![tactic(auto)]

use std::io;

fn main(rt: HostRuntime) -> io::Result<()> {
    cases::run(&rt)
}
