//! Changes of an open book, closing it, and each of their refusals.

use crate::books::book_bytes;
use crate::print_refusal;
use book::{IndexRecord, OpenBook, read};
use closed::close;
use format::Card;
use refusal::Refusal;

fn print_answer(rt: &HostRuntime, label: &str, answer: Result<(), Refusal>) -> anyhow::Result<()> {
    print!(rt; "{label}: ")?;
    match answer {
        Ok(()) => Ok(println!(rt; "done")?),
        Err(refusal) => print_refusal(rt, refusal),
    }
}

// Closes the book over the spaces, tells what came of it, and gives the open book back.
fn try_close<'a>(
    rt: &HostRuntime,
    label: &str,
    open: OpenBook,
    cards: &'a [Card],
    marks: &'a [u8],
) -> anyhow::Result<OpenBook> {
    print!(rt; "{label}: ")?;
    match close(open, cards, marks) {
        Ok(closed) => {
            let rolls = closed.cards().len();
            println!(rt; "closed, {rolls} rolls")?;
            Ok(closed.open())
        }
        Err((refusal, open)) => {
            print_refusal(rt, refusal)?;
            Ok(open)
        }
    }
}

// Three cards; 0 and 1 are partners, and 0 and 2; 0 and 2 are withdrawn.
fn change(
    rt: &HostRuntime,
    cards: &mut [Card; 256],
    marks: &mut [u8; 4080],
    mut open: OpenBook,
) -> anyhow::Result<()> {
    let short_cards = &cards[0..255];
    print_answer(
        rt,
        "add into short card space",
        open.add_pair(short_cards, marks, 1, 2),
    )?;
    print_answer(
        rt,
        "withdraw with short mark space",
        open.withdraw(cards, &marks[0..4079], 1),
    )?;
    print_answer(rt, "add 1 2", open.add_pair(cards, marks, 1, 2))?;
    print_answer(rt, "add 2 1", open.add_pair(cards, marks, 2, 1))?;
    print_answer(rt, "strike 1 2", open.strike_pair(cards, marks, 1, 2))?;
    print_answer(rt, "strike 1 2", open.strike_pair(cards, marks, 1, 2))?;
    print_answer(rt, "add 0 0", open.add_pair(cards, marks, 0, 0))?;
    print_answer(rt, "add 0 3", open.add_pair(cards, marks, 0, 3))?;
    print_answer(rt, "withdraw 0", open.withdraw(cards, marks, 0))?;
    print_answer(rt, "withdraw 1", open.withdraw(cards, marks, 1))?;
    print_answer(rt, "reinstate 1", open.reinstate(cards, marks, 1))?;
    print_answer(rt, "reinstate 1", open.reinstate(cards, marks, 1))?;
    print_answer(rt, "withdraw 3", open.withdraw(cards, marks, 3))?;
    let open = try_close(rt, "close", open, cards, marks)?;
    let open = try_close(
        rt,
        "close over short card space",
        open,
        &cards[0..255],
        marks,
    )?;
    let open = try_close(
        rt,
        "close over short mark space",
        open,
        cards,
        &marks[0..4079],
    )?;
    cards[2].stamp = 1;
    let open = try_close(rt, "close with stamp 1 twice", open, cards, marks)?;
    cards[1].family = 0;
    let _ = try_close(rt, "close with family 0", open, cards, marks)?;
    Ok(())
}

fn change_rule(
    rt: &HostRuntime,
    cards: &[Card],
    marks: &mut [u8],
    open: OpenBook,
) -> anyhow::Result<()> {
    print_answer(rt, "add under a rule", open.add_pair(cards, marks, 0, 1))?;
    let _ = try_close(rt, "close under a rule", open, cards, marks)?;
    Ok(())
}

pub(crate) fn run(rt: &HostRuntime) -> anyhow::Result<()> {
    println!(rt; "-- changes")?;
    let mut cards = [Card::NONE; 256];
    let mut marks = [0; 4080];
    let mut index = [IndexRecord::NONE; 256];
    let bytes = book_bytes(rt, "unordered")?;
    match read(bytes.as_slice(), &mut cards, &mut marks, &mut index) {
        Ok(open) => change(rt, &mut cards, &mut marks, open)?,
        Err(refusal) => print_refusal(rt, refusal)?,
    }
    let bytes = book_bytes(rt, "rule")?;
    match read(bytes.as_slice(), &mut cards, &mut marks, &mut index) {
        Ok(open) => change_rule(rt, &cards, &mut marks, open),
        Err(refusal) => print_refusal(rt, refusal),
    }
}
