//! Pair tables of every kind: who is whose partner, and each refusal once.

use crate::books::book_bytes;
use crate::{print_refusal, with_lists};
use book::IndexRecord;
use closed::{ClosedBook, read_closed};
use format::Card;
use pairs::{PairTable, Selection, Stamped};

// Each place with its first partner, if it has one.
fn print_partners<T: PairTable>(rt: &HostRuntime, table: &T) -> anyhow::Result<()> {
    for u in 0..table.size() {
        match table.first_partner(u, 0) {
            Some(v) => println!(rt; "place {u}: first partner {v}")?,
            None => println!(rt; "place {u}: no partner")?,
        }
    }
    Ok(())
}

fn print_stamps<T: Stamped>(rt: &HostRuntime, table: &T) -> anyhow::Result<()> {
    for u in 0..table.size() {
        let stamp = table.stamp(u);
        println!(rt; "place {u}: stamp {stamp}")?;
    }
    Ok(())
}

fn print_table<T: Stamped>(rt: &HostRuntime, table: &T) -> anyhow::Result<()> {
    print_stamps(rt, table)?;
    print_partners(rt, table)
}

fn print_book(rt: &HostRuntime, name: &str) -> anyhow::Result<()> {
    println!(rt; "-- table of {name}")?;
    let bytes = book_bytes(rt, name)?;
    // No struct holds the three spaces: a table that borrows from the fields of one gets no proof.
    let mut cards = [Card::NONE; 256];
    let mut marks = [0; 4080];
    let mut index = [IndexRecord::NONE; 256];
    match read_closed(bytes.as_slice(), &mut cards, &mut marks, &mut index) {
        Ok(ClosedBook::Pairs(table)) => print_table(rt, &table),
        Ok(ClosedBook::Ruled(table)) => print_table(rt, &table),
        Err(refusal) => print_refusal(rt, refusal),
    }
}

fn print_lists<'a>(
    rt: &HostRuntime,
    label: &str,
    ends: &'a [u16],
    entries: &'a [u16],
) -> anyhow::Result<()> {
    println!(rt; "-- lists: {label}")?;
    with_lists(rt, ends, entries, |table| print_partners(rt, &table))
}

fn select<T: PairTable + Drop>(rt: &HostRuntime, table: T, chosen: &[u16]) -> anyhow::Result<()> {
    match Selection::new(table, chosen) {
        Ok(selection) => print_partners(rt, &selection),
        Err((refusal, _)) => print_refusal(rt, refusal),
    }
}

// A selection of three lists in which 0 and 1, and 1 and 2, are partners.
fn print_selection(rt: &HostRuntime, label: &str, chosen: &[u16]) -> anyhow::Result<()> {
    println!(rt; "-- selection: {label}")?;
    with_lists(
        rt,
        &[1, 3, 4],
        &[1, 0, 2, 1],
        |table| select(rt, table, chosen),
    )
}

pub(crate) fn run(rt: &HostRuntime) -> anyhow::Result<()> {
    print_book(rt, "rack-a")?;
    print_book(rt, "tolerance")?;
    print_lists(rt, "a path of three", &[1, 3, 4], &[1, 0, 2, 1])?;
    print_lists(rt, "none", &[], &[])?;
    print_lists(rt, "two empty ones", &[0, 0], &[])?;
    print_lists(rt, "257 of them", &[0; 257], &[])?;
    print_lists(rt, "an end below the one before", &[1, 0], &[1])?;
    print_lists(rt, "an end past the entries", &[1, 3], &[1, 0])?;
    print_lists(rt, "entries that do not rise", &[2, 2, 2], &[2, 1])?;
    print_lists(rt, "a place beyond", &[1, 1], &[2])?;
    print_lists(rt, "a roll with itself", &[0, 1], &[1])?;
    print_lists(rt, "one-sided", &[0, 1], &[0])?;
    print_selection(rt, "turned", &[2, 1, 0])?;
    print_selection(rt, "two of them", &[0, 2])?;
    print_selection(rt, "none", &[])?;
    print_selection(rt, "a place beyond", &[0, 3])?;
    print_selection(rt, "the same twice", &[1, 0, 1])
}
