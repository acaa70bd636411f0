//! Every refusal of a running switch, and the order in which they come.
use crate::show::{arrive, ask, step};
use plan::Size;
use std::io;
use store::Store;
use switch::{Departure, Draft, Running};
use tie::Lowest;

fn sealed<S: Store + Drop>(store: S) -> Option<Running<S, Lowest>> {
    let size = Size::new(2, 6, 4).ok()?;
    let mut draft = Draft::open(size, store, Lowest);
    let _ = draft.share(0, 1, 3);
    Some(draft.seal())
}

/// A step on a list of so many entries, and the tick of the first entry after it.
fn step_on<S: Store>(
    rt: &impl Print,
    switch: &mut Running<S, Lowest>,
    entries: usize,
) -> io::Result<()> {
    let mut list = [Departure {
        tick: 77,
        ..Departure::default()
    }; 5];
    let room = entries.min(5);
    match switch.step(&mut list[0..room]) {
        Ok(count) => println!(rt; "step on {room}: {count}")?,
        Err(fault) => println!(rt; "step on {room}: refused {}", fault.number())?,
    }
    for d in list.iter() {
        print!(rt; " {}", d.tick)?;
    }
    println!(rt; "")
}

/// A port before a length before a closed flow; a short list before the last tick; entries past the answer stay.
pub fn run<S: Store + Drop>(rt: &impl Print, store: S) -> io::Result<()> {
    let Some(mut switch) = sealed(store) else {
        return Ok(());
    };
    arrive(rt, &mut switch, 2, 1, 7)?;
    arrive(rt, &mut switch, 0, 2, 1)?;
    arrive(rt, &mut switch, 0, 0, 7)?;
    arrive(rt, &mut switch, 0, 0, 0)?;
    arrive(rt, &mut switch, 0, 0, 6)?;
    arrive(rt, &mut switch, 0, 1, 7)?;
    ask(rt, &switch, 0, 1)?;
    ask(rt, &switch, 0, 2)?;
    arrive(rt, &mut switch, 0, 1, 1)?;
    for _ in 0..6 {
        step_on(rt, &mut switch, 1)?;
        step_on(rt, &mut switch, 2)?;
    }
    step_on(rt, &mut switch, 5)?;
    println!(rt; "passed {}", switch.pass_quiet(2000000000000))?;
    step_on(rt, &mut switch, 1)?;
    step_on(rt, &mut switch, 5)?;
    arrive(rt, &mut switch, 0, 1, 6)?;
    ask(rt, &switch, 0, 1)
}

/// A flow that is filled up: the arrival behind the last one is refused, until a packet has left.
pub fn fill<S: Store + Drop>(rt: &impl Print, store: S, most: usize) -> io::Result<()> {
    let Some(mut switch) = sealed(store) else {
        return Ok(());
    };
    let accepted = (0..most).filter(|_| switch.arrive(0, 1, 1).is_ok()).count();
    println!(rt; "accepted {accepted}")?;
    arrive(rt, &mut switch, 0, 1, 1)?;
    arrive(rt, &mut switch, 0, 1, 7)?;
    for _ in 0..7 {
        step(rt, &mut switch)?;
    }
    arrive(rt, &mut switch, 0, 1, 6)?;
    arrive(rt, &mut switch, 0, 1, 1)?;
    ask(rt, &switch, 0, 1)
}
