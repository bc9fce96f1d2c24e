// Compares what the reader and the writer of texts do with what is expected of them, vector after vector.
#![tactic(auto)]

use std::{fmt, io};
use tally::Tally;
use vector::Vector;

mod numbers;
mod reading;
mod shown;
mod vector;
mod writing;

// Prints a vector's name and what came out, and counts it.
fn note<T: fmt::Display>(rt: &HostRuntime, tally: &mut Tally, v: &Vector<T>) -> io::Result<()> {
    let what = v.what;
    let expected = v.expected;
    let shown = &v.shown;
    let came = format!(in rt.alloc(); "{shown}")?;
    let same = came.as_str() == expected;
    tally.note(same);
    if same {
        return println!(rt; "{what}: {came} right");
    }
    println!(rt; "{what}: {came} WRONG")?;
    println!(rt; "expected: {expected}")
}

fn note_all<T: fmt::Display>(
    rt: &HostRuntime,
    tally: &mut Tally,
    vectors: &[Vector<T>],
) -> io::Result<()> {
    for v in vectors {
        note(rt, tally, v)?;
    }
    Ok(())
}

fn main(rt: HostRuntime) -> io::Result<()> {
    let mut tally = Tally::new();
    note_all(&rt, &mut tally, &reading::RFC)?;
    note_all(&rt, &mut tally, &reading::RIGHT)?;
    note_all(&rt, &mut tally, &reading::WRONG)?;
    note_all(&rt, &mut tally, &reading::PAIRS)?;
    note_all(&rt, &mut tally, &reading::COUNTS)?;
    note_all(&rt, &mut tally, &numbers::NUMBERS)?;
    note_all(&rt, &mut tally, &numbers::LONG_NUMBERS)?;
    note_all(&rt, &mut tally, &numbers::HEADERS)?;
    note_all(&rt, &mut tally, &writing::TABLES)?;
    note_all(&rt, &mut tally, &writing::LINES)?;
    note_all(&rt, &mut tally, &writing::HEADINGS)?;
    println!(&rt; "{tally}")
}
