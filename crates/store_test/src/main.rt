//! Runs each store through one sequence of calls, and compares it with a plain list.
#![tactic(auto)]

mod plain;
mod run;
mod serials;

use plain::Plain;
use pool::Pool;
use rings::Rings;
use run::agrees;
use serials::{counts_up, incoming};
use std::io;
use store::Store;

fn verdict(same: bool) -> &'static str {
    if same { "ok" } else { "differs" }
}

// Compares a store with a plain list over so many calls, and tells.
fn compare<S: Store>(rt: &HostRuntime, name: &str, store: &mut S, calls: u64) -> io::Result<()> {
    let same = agrees(store, &mut Plain::new(rt.alloc()), calls)?;
    println!(rt; "{name} {}", verdict(same))
}

fn main(rt: HostRuntime) -> io::Result<()> {
    compare(&rt, "rings", &mut Rings::new(), 600)?;
    let mut pool = Pool::new();
    compare(&rt, "pool", &mut pool, 1200)?;
    let same = incoming().is_some_and(|packet| counts_up(Rings::new(), packet)
        && counts_up(pool, packet));
    println!(rt; "serials {}", verdict(same))
}
