//! replay: carries out each batch whose file is named, one after the other, each with a monitor of its own. The gate runs
//! it on the examples and on inputs that end in unusual ways: no octet, an empty record, no CR LF at the end.
#![tactic(auto)]

use batch::run_batch;
use std::io::Write;
use std::{env, fs, io};

fn main(rt: HostRuntime) -> io::Result<()> {
    for name in env::args(&rt)?.skip(1) {
        let input = fs::read(&rt, &name)?;
        let output = run_batch(rt.alloc(), &input)?;
        rt.stdout().write_all(&output)?;
    }
    Ok(())
}
