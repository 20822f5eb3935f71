// Reads, fills and tests the worked frames and others. Standard input has the cases, as the crate `cases` says.
#![tactic(auto)]

use std::io;

fn main(rt: HostRuntime) -> io::Result<()> {
    cases::run(&rt)
}
