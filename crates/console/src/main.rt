// The console: reads a script from standard input and performs one call of the service a line.
#![tactic(auto)]

use running::{MOST_BYTES, run};
use std::io;
use std::io::{Read, Write};

mod answers;
mod calls;
mod reading;
mod running;
mod state;
mod tally;

fn main(rt: HostRuntime) -> io::Result<()> {
    let heap = rt.alloc();
    let mut script = Vec::new(heap);
    rt.stdin()
        .take(MOST_BYTES as u64 + 1)
        .read_to_end(&mut script)?;
    let mut out = rt.stdout();
    if script.len() > MOST_BYTES {
        return out.write_all(b"input too long\n");
    }
    let printed = run(heap, script.as_slice())?;
    out.write_all(printed.as_slice())
}
