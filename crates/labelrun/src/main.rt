//! labelrun: carries out the records of standard input, and writes what each came to on standard output.
#![tactic(auto)]

use batch::run_batch;
use std::io;
use std::io::{Read, Write};

fn main(rt: HostRuntime) -> io::Result<()> {
    let mut input = Vec::new(rt.alloc());
    rt.stdin().read_to_end(&mut input)?;
    let output = run_batch(rt.alloc(), &input)?;
    rt.stdout().write_all(&output)
}
