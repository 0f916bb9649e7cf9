//! Runs the library on books, lists and changes, and prints what came of each. The stored output was worked out by hand.
#![tactic(auto)]

mod books;
mod changes;
mod orders;
mod sets;
mod sheets;
mod tables;
mod walks;

use pairs::PartnerLists;
use refusal::Refusal;

fn print_refusal(rt: &HostRuntime, refusal: Refusal) -> anyhow::Result<()> {
    let below = refusal.below_number();
    println!(rt; "{refusal}, from below {below}")?;
    Ok(())
}

fn print_members(rt: &HostRuntime, members: &[u16]) -> anyhow::Result<()> {
    for member in members {
        print!(rt; " {member}")?;
    }
    Ok(())
}

// Hands the table of partner lists on, or prints why the lists are refused.
fn with_lists<F>(rt: &HostRuntime, ends: &[u16], entries: &[u16], show: F) -> anyhow::Result<()>
where
    F: FnOnce(PartnerLists) -> anyhow::Result<()>,
    requires { F.IsAlwaysCallable show }
{
    match PartnerLists::new(ends, entries) {
        Ok(table) => show(table),
        Err(refusal) => print_refusal(rt, refusal),
    }
}

fn run(rt: &HostRuntime) -> anyhow::Result<()> {
    books::run(rt)?;
    changes::run(rt)?;
    tables::run(rt)?;
    sets::run(rt)?;
    orders::run(rt)?;
    walks::run(rt)
}

fn main(rt: HostRuntime) -> anyhow::Result<()> {
    run(&rt)
}
