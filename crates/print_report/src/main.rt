//! Prints the report of a supplier's file that is read from standard input.

#![tactic(auto)]

use report::MOST_BYTES;
use std::io;
use std::io::{Read, Write};

// One byte more than the report takes, so that a longer file is refused as too big and not read to its end.
const MOST_READ: u64 = MOST_BYTES as u64 + 1;

// The text space that the report asks for.
const TEXT_SPACE: usize = 4096;

fn main(rt: HostRuntime) -> io::Result<()> {
    let mut file = Vec::new(rt.alloc());
    rt.stdin().take(MOST_READ).read_to_end(&mut file)?;
    let mut text = [0; TEXT_SPACE];
    let wrote = report::report(file.as_slice(), &mut text);
    rt.stdout().write_all(&text[..wrote as usize])
}
