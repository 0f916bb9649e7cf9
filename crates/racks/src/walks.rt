//! Runs of a walk in degeneracy order: every call answered, and what steps alone give after the calls.

use crate::books::book_bytes;
use crate::sheets::{Lent, Sheet, read_sheet};
use crate::{print_members, print_refusal, with_lists};
use book::IndexRecord;
use closed::{ClosedBook, read_closed};
use completion::Standing;
use format::Card;
use model::{Answer, Call, Exchange};
use order::Waiting;
use pairs::{PairTable, Selection};
use runs::{InOrder, run_in_order};
use std::fs;

// The call as a sheet says it, with the space that it left, and what it answered.
fn print_exchange(rt: &HostRuntime, exchange: &Exchange) -> anyhow::Result<()> {
    match exchange.call {
        Call::Step => print!(rt; "step")?,
        Call::Read => print!(rt; "read")?,
        Call::Resume => print!(rt; "resume")?,
    }
    print_members(rt, &exchange.space)?;
    match exchange.answer {
        None => Ok(println!(rt; ": not made")?),
        Some(Ok(Answer::Count(count))) => Ok(println!(rt; ": {count} members")?),
        Some(Ok(Answer::Resumed)) => Ok(println!(rt; ": resumed")?),
        Some(Err(refusal)) => {
            print!(rt; ": ")?;
            print_refusal(rt, refusal)
        }
    }
}

// The order, what the walk kept after the calls, and the sets that steps alone gave.
fn print_rest(
    rt: &HostRuntime,
    told: InOrder,
    order: &[u16],
    room: &[Standing],
) -> anyhow::Result<()> {
    print!(rt; "order")?;
    print_members(rt, order)?;
    println!(rt; ", degeneracy {}", told.degeneracy)?;
    print!(rt; "kept")?;
    print_members(rt, told.rest.kept.members())?;
    println!(rt; "")?;
    for set in room.iter().take(told.rest.count) {
        print!(rt; "then")?;
        print_members(rt, set.members())?;
        println!(rt; "")?;
    }
    println!(rt; "{} sets, all {}", told.rest.count, told.rest.all)?;
    Ok(())
}

// Makes the sheet's calls on the table in degeneracy order.
fn walk<T: PairTable + Drop>(
    rt: &HostRuntime,
    table: T,
    lent: &Lent,
    calls: &mut [Exchange],
) -> anyhow::Result<()> {
    let mut order = vec![in rt.alloc(); 0; lent.places]?;
    let mut waiting = vec![in rt.alloc(); Waiting { tally: 0, place: 0 }; lent.places]?;
    let mut sets = vec![in rt.alloc(); Standing::empty(); lent.sets]?;
    let (_, told) = run_in_order(table, &mut order, &mut waiting, calls, &mut sets);
    for exchange in calls.iter() {
        print_exchange(rt, exchange)?;
    }
    match told {
        Ok(told) => print_rest(rt, told, &order, &sets),
        Err(refusal) => print_refusal(rt, refusal),
    }
}

// A sheet's calls on its own lists.
fn walk_lists(rt: &HostRuntime, name: &str) -> anyhow::Result<()> {
    println!(rt; "-- calls of {name}")?;
    let Sheet {
        ends,
        entries,
        lent,
        mut calls,
    } = read_sheet(rt, name)?;
    with_lists(
        rt,
        &ends,
        &entries,
        |table| walk(rt, table, &lent, &mut calls),
    )
}

// A sheet's calls on a selection of a selection of its lists.
fn walk_selected(rt: &HostRuntime, name: &str, outer: &[u16], inner: &[u16]) -> anyhow::Result<()> {
    println!(rt; "-- calls of {name} on a selection of a selection")?;
    let Sheet {
        ends,
        entries,
        lent,
        mut calls,
    } = read_sheet(rt, name)?;
    with_lists(rt, &ends, &entries, |table| {
        match Selection::new(table, outer) {
            Ok(middle) => match Selection::new(middle, inner) {
                Ok(top) => walk(rt, top, &lent, &mut calls),
                Err((refusal, _)) => print_refusal(rt, refusal),
            },
            Err((refusal, _)) => print_refusal(rt, refusal),
        }
    })
}

// A sheet's calls on a book.
fn walk_book(rt: &HostRuntime, name: &str, book: &str) -> anyhow::Result<()> {
    println!(rt; "-- calls of {name} on the book {book}")?;
    let mut sheet = read_sheet(rt, name)?;
    let bytes = book_bytes(rt, book)?;
    let mut cards = [Card::NONE; 256];
    let mut marks = [0; 4080];
    let mut index = [IndexRecord::NONE; 256];
    match read_closed(bytes.as_slice(), &mut cards, &mut marks, &mut index) {
        Ok(ClosedBook::Pairs(table)) => walk(rt, table, &sheet.lent, &mut sheet.calls),
        Ok(ClosedBook::Ruled(table)) => walk(rt, table, &sheet.lent, &mut sheet.calls),
        Err(refusal) => print_refusal(rt, refusal),
    }
}

pub(crate) fn run(rt: &HostRuntime) -> anyhow::Result<()> {
    let names = fs::read_to_string(rt, "calls.txt")?;
    for name in names.lines() {
        walk_lists(rt, name)?;
    }
    walk_selected(rt, "rack-a", &[5, 4, 3, 2, 1], &[4, 3, 2, 1, 0])?;
    walk_book(rt, "steps", "rack-a")?;
    walk_book(rt, "steps", "tolerance")
}
