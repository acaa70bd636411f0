//! Drives switches through runs that are worked out by hand, over both stores and all three tie rules, and prints the
//! answer of every call.
#![tactic(auto)]

mod refused;
mod show;
mod ties;
mod uneven;

use pool::Pool;
use rings::Rings;
use std::io;
use tie::{Longest, Lowest, Turn};

fn main(rt: HostRuntime) -> io::Result<()> {
    println!(rt; "== uneven: rings, lowest")?;
    uneven::run(&rt, Rings::new(), Lowest)?;
    println!(rt; "== uneven: pool, turn")?;
    uneven::run(&rt, Pool::new(), Turn::new())?;
    println!(rt; "== ties: rings, lowest")?;
    ties::run(&rt, Rings::new(), Lowest)?;
    println!(rt; "== ties: rings, turn")?;
    ties::run(&rt, Rings::new(), Turn::new())?;
    println!(rt; "== ties: rings, longest")?;
    ties::run(&rt, Rings::new(), Longest)?;
    println!(rt; "== ties: pool, lowest")?;
    ties::run(&rt, Pool::new(), Lowest)?;
    println!(rt; "== ties: pool, turn")?;
    ties::run(&rt, Pool::new(), Turn::new())?;
    println!(rt; "== ties: pool, longest")?;
    ties::run(&rt, Pool::new(), Longest)?;
    println!(rt; "== refused: rings")?;
    refused::run(&rt, Rings::new())?;
    println!(rt; "== full: rings")?;
    refused::fill(&rt, Rings::new(), 2)?;
    println!(rt; "== full: pool")?;
    refused::fill(&rt, Pool::new(), 512)
}
