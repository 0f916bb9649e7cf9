//! A book changes hands: it is read, changed while open, closed, walked, opened and changed again, closed and walked on from
//! a set that was written down.
//!
//! `tools/misuse` shows that this order cannot be broken: with one line more, this program does not compile.
#![tactic(auto)]

use book::{IndexRecord, read};
use closed::{ClosedBook, close};
use format::Card;
use pairs::PairTable;
use refusal::Refusal;
use walk::Walk;

// Two cards and the end.
const BOOK: [u8; 21] = [
    0x01, 0, 1, 1, 0, 0, 0xc3, 0x50, 0, 0, 0x01, 0, 2, 1, 0, 0, 0xc3, 0x50, 0, 0, 0x05,
];

fn print_refusal(rt: &HostRuntime, refusal: Refusal) -> anyhow::Result<()> {
    Ok(rt.println(refusal)?)
}

// Goes on to the next set and prints it, or why there is none.
fn print_next<T: PairTable>(rt: &HostRuntime, walk: &mut Walk<T>) -> anyhow::Result<()> {
    match walk.step() {
        Ok(count) => println!(rt; "set of {count}")?,
        Err(refusal) => rt.println(refusal)?,
    }
    Ok(())
}

// Walks on from the set given, and puts the walk away.
fn print_after<T: PairTable + Drop>(rt: &HostRuntime, table: T, set: &[u16]) -> anyhow::Result<()> {
    let mut walk = Walk::new(table);
    let printed = match walk.resume(set) {
        Ok(()) => print_next(rt, &mut walk),
        Err(refusal) => print_refusal(rt, refusal),
    };
    let _ = walk.put_away();
    printed
}

fn run(rt: &HostRuntime) -> anyhow::Result<()> {
    let mut cards = [Card::NONE; 256];
    let mut marks = [0; 4080];
    let mut index = [IndexRecord::NONE; 256];
    let open = match read(&BOOK, &mut cards, &mut marks, &mut index) {
        Ok(open) => open,
        Err(refusal) => return Ok(rt.println(refusal)?),
    };
    if let Err(refusal) = open.add_pair(&cards, &mut marks, 0, 1) {
        rt.println(refusal)?;
    }
    match close(open, &cards, &marks) {
        Ok(ClosedBook::Pairs(table)) => {
            // misuse: change a closed book
            // misuse: close twice
            let mut walk = Walk::new(table);
            let printed = print_next(rt, &mut walk);
            // misuse: add a pair while a walk holds the table
            let table = walk.put_away();
            // misuse: step a walk that was put away
            let open = ClosedBook::Pairs(table).open();
            if let Err(refusal) = open.strike_pair(&cards, &mut marks, 0, 1) {
                rt.println(refusal)?;
            }
            printed?;
            match close(open, &cards, &marks) {
                Ok(ClosedBook::Pairs(table)) => print_after(rt, table, &[0]),
                Ok(ClosedBook::Ruled(_)) => Ok(()),
                Err((refusal, _)) => Ok(rt.println(refusal)?),
            }
        }
        Ok(ClosedBook::Ruled(_)) => Ok(()),
        Err((refusal, _)) => Ok(rt.println(refusal)?),
    }
}

fn main(rt: HostRuntime) -> anyhow::Result<()> {
    run(&rt)
}
