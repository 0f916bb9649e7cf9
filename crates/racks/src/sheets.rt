//! Sheets: partner lists and calls on a walk, one line each, as files tell them.

use anyhow::anyhow;
use model::{Call, Exchange};
use std::fs;

/// For how many places, and for how many sets, space is lent.
#[derive(Clone, Copy)]
pub(crate) struct Lent {
    pub(crate) places: usize,
    pub(crate) sets: usize,
}

/// What a sheet says: partner lists, the space that is lent, and the calls.
#[derive(Drop)]
pub(crate) struct Sheet {
    pub(crate) ends: Vec<u16>,
    pub(crate) entries: Vec<u16>,
    pub(crate) lent: Lent,
    pub(crate) calls: Vec<Exchange>,
}

// The numbers of a line, behind its first word.
fn numbers(rt: &HostRuntime, line: &str) -> anyhow::Result<Vec<u16>> {
    let mut numbers = Vec::new(rt.alloc());
    for word in line.split_whitespace().skip(1) {
        numbers.push(word.parse::<u16>()?)?;
    }
    Ok(numbers)
}

// The first number of a line.
fn number(rt: &HostRuntime, line: &str) -> anyhow::Result<usize> {
    match numbers(rt, line)?.first() {
        Some(number) => Ok(usize::from(*number)),
        None => Err(anyhow!("a number is wanting: {line}")),
    }
}

// A call that is not made yet, with its space.
fn asked(call: Call, space: Vec<u16>) -> Exchange {
    Exchange {
        call,
        space,
        answer: None,
    }
}

/// Reads the sheet of a name: lines `ends`, `entries`, `places` and `sets` with their numbers, and the calls `step`, `read 3`
/// into a space of three entries, and `resume 0 1 2` at a set.
pub(crate) fn read_sheet(rt: &HostRuntime, name: &str) -> anyhow::Result<Sheet> {
    let path = format!(in rt.alloc(); "{name}.calls")?;
    let text = fs::read_to_string(rt, path.as_str())?;
    let mut sheet = Sheet {
        ends: Vec::new(rt.alloc()),
        entries: Vec::new(rt.alloc()),
        lent: Lent { places: 0, sets: 0 },
        calls: Vec::new(rt.alloc()),
    };
    for line in text.lines() {
        match line.split_whitespace().next() {
            Some("ends") => sheet.ends = numbers(rt, line)?,
            Some("entries") => sheet.entries = numbers(rt, line)?,
            Some("places") => sheet.lent.places = number(rt, line)?,
            Some("sets") => sheet.lent.sets = number(rt, line)?,
            Some("step") => sheet.calls.push(asked(Call::Step, Vec::new(rt.alloc())))?,
            Some("read") => {
                let space = vec![in rt.alloc(); 999; number(rt, line)?]?;
                sheet.calls.push(asked(Call::Read, space))?;
            }
            Some("resume") => sheet.calls.push(asked(Call::Resume, numbers(rt, line)?))?,
            _ => return Err(anyhow!("no line of a sheet: {line}")),
        }
    }
    Ok(sheet)
}
