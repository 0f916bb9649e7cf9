//! The degeneracy order of small racks, and its refusals.

use crate::{print_members, print_refusal, with_lists};
use order::{Waiting, degeneracy_order};
use pairs::PairTable;

// The order in spaces of the lengths given, and what lies beyond it.
fn print_order<T: PairTable>(
    rt: &HostRuntime,
    table: &T,
    room: usize,
    waiting_room: usize,
) -> anyhow::Result<()> {
    let mut order = vec![in rt.alloc(); 999; room]?;
    let mut space = vec![in rt.alloc(); Waiting { tally: 0, place: 0 }; waiting_room]?;
    match degeneracy_order(table, &mut order, &mut space) {
        Ok((placed, largest)) => print!(rt; "{placed} places, later partners {largest},")?,
        Err(refusal) => print_refusal(rt, refusal)?,
    }
    print_members(rt, &order)?;
    Ok(println!(rt; "")?)
}

fn rack_a(rt: &HostRuntime) -> anyhow::Result<()> {
    println!(rt; "-- orders of 01 02 12 13 23 34 and 5 alone")?;
    with_lists(
        rt,
        &[2, 5, 8, 11, 12, 12],
        &[1, 2, 0, 2, 3, 0, 1, 3, 1, 2, 4, 3],
        |table| {
            print_order(rt, &table, 7, 6)?;
            print_order(rt, &table, 5, 6)?;
            print_order(rt, &table, 6, 5)
        },
    )
}

// Place 2 has no earlier partner, so it moves up, before 1.
fn two_groups(rt: &HostRuntime) -> anyhow::Result<()> {
    println!(rt; "-- order of 01 23 24 34")?;
    with_lists(
        rt,
        &[1, 2, 4, 6, 8],
        &[1, 0, 3, 4, 2, 4, 2, 3],
        |table| print_order(rt, &table, 5, 5),
    )
}

fn smallest_racks(rt: &HostRuntime) -> anyhow::Result<()> {
    println!(rt; "-- orders of no place and of one")?;
    with_lists(rt, &[], &[], |table| print_order(rt, &table, 0, 0))?;
    with_lists(rt, &[0], &[], |table| print_order(rt, &table, 1, 1))
}

pub(crate) fn run(rt: &HostRuntime) -> anyhow::Result<()> {
    rack_a(rt)?;
    two_groups(rt)?;
    smallest_racks(rt)
}
