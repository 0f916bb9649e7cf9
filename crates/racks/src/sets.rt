//! The calls on sets, on the worked racks, and each of their refusals.

use crate::{print_members, print_refusal, with_lists};
use completion::{complete, parent, parent_index};
use pairs::PairTable;

// The first `count` members of a space, at the end of a line.
fn print_front(rt: &HostRuntime, space: &mut Vec<u16>, count: usize) -> anyhow::Result<()> {
    space.truncate(count);
    print_members(rt, space)?;
    Ok(println!(rt; "")?)
}

// The completion of a set, in a space of the length given.
fn print_completion<T: PairTable>(
    rt: &HostRuntime,
    table: &T,
    set: &[u16],
    room: usize,
) -> anyhow::Result<()> {
    let mut out = vec![in rt.alloc(); 0; room]?;
    print!(rt; "completion of")?;
    print_members(rt, set)?;
    print!(rt; ": ")?;
    match complete(table, set, &mut out) {
        Ok(count) => {
            print!(rt; "{count} members")?;
            print_front(rt, &mut out, count)
        }
        Err(refusal) => print_refusal(rt, refusal),
    }
}

// The parent index of a set, and its parent in a space of the length given.
fn print_parent<T: PairTable>(
    rt: &HostRuntime,
    table: &T,
    set: &[u16],
    room: usize,
) -> anyhow::Result<()> {
    let mut out = vec![in rt.alloc(); 0; room]?;
    print!(rt; "set")?;
    print_members(rt, set)?;
    print!(rt; ": ")?;
    match parent_index(table, set) {
        Ok(index) => print!(rt; "parent index {index}, ")?,
        Err(refusal) => return print_refusal(rt, refusal),
    }
    match parent(table, set, &mut out) {
        Ok(Some(count)) => {
            print!(rt; "parent")?;
            print_front(rt, &mut out, count)
        }
        Ok(None) => Ok(println!(rt; "a root")?),
        Err(refusal) => print_refusal(rt, refusal),
    }
}

fn print_singles<T: PairTable>(rt: &HostRuntime, table: &T) -> anyhow::Result<()> {
    for v in (0..table.size()).filter_map(|v| u16::try_from(v).ok()) {
        print_completion(rt, table, &[v], 256)?;
    }
    Ok(())
}

fn rack_a(rt: &HostRuntime) -> anyhow::Result<()> {
    println!(rt; "-- sets of 01 02 12 13 23 34 and 5 alone")?;
    with_lists(
        rt,
        &[2, 5, 8, 11, 12, 12],
        &[1, 2, 0, 2, 3, 0, 1, 3, 1, 2, 4, 3],
        |table| {
            print_singles(rt, &table)?;
            print_parent(rt, &table, &[0, 1, 2], 0)?;
            print_parent(rt, &table, &[1, 2, 3], 3)?;
            print_parent(rt, &table, &[3, 4], 256)?;
            print_parent(rt, &table, &[5], 0)?;
            print_completion(rt, &table, &[], 256)?;
            print_completion(rt, &table, &[2, 1], 256)?;
            print_completion(rt, &table, &[0, 6], 256)?;
            print_completion(rt, &table, &[0, 1, 3], 256)?;
            print_completion(rt, &table, &[3], 2)?;
            print_parent(rt, &table, &[1, 2], 256)?;
            print_parent(rt, &table, &[1, 2, 3], 2)
        },
    )
}

fn rack_b(rt: &HostRuntime) -> anyhow::Result<()> {
    println!(rt; "-- sets of 01 03 12 23")?;
    with_lists(rt, &[2, 4, 6, 8], &[1, 3, 0, 2, 1, 3, 0, 2], |table| {
        print_singles(rt, &table)?;
        print_parent(rt, &table, &[0, 1], 256)?;
        print_parent(rt, &table, &[1, 2], 256)?;
        print_parent(rt, &table, &[2, 3], 256)?;
        print_parent(rt, &table, &[0, 3], 256)
    })
}

fn rack_c(rt: &HostRuntime) -> anyhow::Result<()> {
    println!(rt; "-- sets of 01 12 13 23")?;
    with_lists(rt, &[1, 4, 6, 8], &[1, 0, 2, 3, 1, 3, 1, 2], |table| {
        print_singles(rt, &table)?;
        print_parent(rt, &table, &[0, 1], 256)?;
        print_parent(rt, &table, &[1, 2, 3], 256)
    })
}

fn rack_d(rt: &HostRuntime) -> anyhow::Result<()> {
    println!(rt; "-- sets of 01 02 03 24")?;
    with_lists(rt, &[3, 4, 6, 7, 8], &[1, 2, 3, 0, 0, 4, 0, 2], |table| {
        print_singles(rt, &table)?;
        print_parent(rt, &table, &[0, 1], 256)?;
        print_parent(rt, &table, &[0, 2], 256)?;
        print_parent(rt, &table, &[2, 4], 256)?;
        print_parent(rt, &table, &[0, 3], 256)
    })
}

// A table without places, and one with a single place.
fn smallest_racks(rt: &HostRuntime) -> anyhow::Result<()> {
    println!(rt; "-- sets of no place and of one")?;
    with_lists(
        rt,
        &[],
        &[],
        |table| print_completion(rt, &table, &[0], 256),
    )?;
    with_lists(rt, &[0], &[], |table| print_parent(rt, &table, &[0], 256))
}

pub(crate) fn run(rt: &HostRuntime) -> anyhow::Result<()> {
    rack_a(rt)?;
    rack_b(rt)?;
    rack_c(rt)?;
    rack_d(rt)?;
    smallest_racks(rt)
}
