// Runs registers through long random call lists beside a plain model, and compares every answer and the whole table after each call.
#![tactic(auto)]

use bit_rows::BitRows;
use flag_table::FlagTable;
use generator::Generator;
use model::Model;
use std::alloc::{AllocError, Global};
use std::io;
use tally::Tally;
use trial::{Trial, note_rows, note_spare};

mod generator;
mod model;
mod trial;

// The heap and the random numbers are `main`'s, and each run is given them.

// A table of words with any content.
fn table(heap: Global, words: usize, random: &mut Generator) -> Result<Vec<u64>, AllocError> {
    let content = (0..words).map(|_| random.next() & random.next() & random.next());
    content.collect(heap)
}

// The words of the table that are no register's.
fn spare(heap: Global, table: &[u64]) -> Result<Vec<u64>, AllocError> {
    table.iter().skip(4096).copied().collect(heap)
}

// Bit rows of so many words: the calls of a run, and then the table itself beside the model.
fn over_rows<F>(
    heap: Global,
    words: usize,
    random: &mut Generator,
    calls: F,
) -> Result<Tally, AllocError>
where
    F: FnOnce(&mut Trial, &mut BitRows) -> Tally,
    requires { F.IsAlwaysCallable calls }
{
    let mut table = table(heap, words, random)?;
    let before = spare(heap, table.as_slice())?;
    let mut model = Model::of_rows(heap, table.as_slice())?;
    let mut rows = BitRows::new(table.as_mut_slice());
    let mut trial = Trial {
        model: &mut model,
        random,
    };
    let mut tally = calls(&mut trial, &mut rows);
    drop(rows);
    note_rows(&mut tally, &model, table.as_slice());
    note_spare(&mut tally, before.as_slice(), table.as_slice());
    Ok(tally)
}

// The integrator's register, with a flag for each of so many users and the 64 roles.
fn flags(heap: Global, users: usize, random: &mut Generator) -> Result<Tally, AllocError> {
    let mut flags = Vec::new(heap);
    flags.resize(users.saturating_mul(64), false)?;
    let seats = random.below(6);
    let mut model = Model::empty(heap, users)?;
    model.limit(&[seats; 64]);
    let mut table = FlagTable::new(flags.as_mut_slice(), seats);
    let mut trial = Trial {
        model: &mut model,
        random,
    };
    let tally = trial.compare(&mut table);
    drop(table);
    Ok(tally)
}

fn report(rt: &HostRuntime, name: &str, users: usize, tally: &Tally) -> io::Result<()> {
    println!(rt; "{name}, {users}: {tally}")
}

fn main(rt: HostRuntime) -> io::Result<()> {
    let heap = rt.alloc();
    let mut random = Generator::new(20261118);
    for words in [0usize, 1, 63, 4096, 5000] {
        let plain = over_rows(heap, words, &mut random, |t, rows| t.compare(rows))?;
        report(&rt, "bit rows", words, &plain)?;
        let one = over_rows(heap, words, &mut random, |t, rows| t.under_one(rows))?;
        report(&rt, "one layer of seats", words, &one)?;
        let two = over_rows(heap, words, &mut random, |t, rows| t.under_two(rows))?;
        report(&rt, "two layers of seats", words, &two)?;
    }
    for users in [0usize, 1, 5, 70] {
        report(&rt, "flags", users, &flags(heap, users, &mut random)?)?;
    }
    Ok(())
}
