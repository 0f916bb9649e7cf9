//! Every book of a list, and readings into short spaces.

use crate::print_refusal;
use book::{IndexRecord, read};
use format::Card;
use std::fs;
use summary::check;

pub(crate) fn book_bytes(rt: &HostRuntime, name: &str) -> anyhow::Result<Vec<u8>> {
    let path = format!(in rt.alloc(); "{name}.book")?;
    Ok(fs::read(rt, path.as_str())?)
}

// The verdict on one book.
fn judge(rt: &HostRuntime, name: &str) -> anyhow::Result<()> {
    println!(rt; "-- {name}")?;
    let bytes = book_bytes(rt, name)?;
    match check(bytes.as_slice()) {
        Ok(summary) => Ok(rt.println(summary)?),
        Err(refusal) => print_refusal(rt, refusal),
    }
}

// A reading into spaces of which one is a record or a byte too short.
fn read_short(
    rt: &HostRuntime,
    bytes: &[u8],
    cards: usize,
    marks: usize,
    index: usize,
) -> anyhow::Result<()> {
    let mut card_space = vec![in rt.alloc(); Card::NONE; cards]?;
    let mut mark_space = vec![in rt.alloc(); 0; marks]?;
    let mut index_space = vec![in rt.alloc(); IndexRecord::NONE; index]?;
    println!(rt; "-- {cards} cards, {marks} mark bytes, {index} index records")?;
    match read(bytes, &mut card_space, &mut mark_space, &mut index_space) {
        Ok(open) => {
            let rolls = open.count();
            Ok(println!(rt; "read, {rolls} rolls")?)
        }
        Err(refusal) => print_refusal(rt, refusal),
    }
}

pub(crate) fn run(rt: &HostRuntime) -> anyhow::Result<()> {
    let names = fs::read_to_string(rt, "books.txt")?;
    for name in names.lines() {
        judge(rt, name)?;
    }
    let bytes = book_bytes(rt, "rack-a")?;
    read_short(rt, bytes.as_slice(), 256, 4080, 256)?;
    read_short(rt, bytes.as_slice(), 255, 4080, 256)?;
    read_short(rt, bytes.as_slice(), 256, 4079, 256)?;
    read_short(rt, bytes.as_slice(), 256, 4080, 255)
}
