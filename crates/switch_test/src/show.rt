//! Makes a call and prints its answer.
use std::{fmt, io};
use store::Store;
use switch::{Departure, Running};
use tie::TieRule;

/// An arrival.
pub fn arrive<S: Store, R>(
    rt: &impl Print,
    switch: &mut Running<S, R>,
    input: usize,
    output: usize,
    bytes: u32,
) -> io::Result<()> {
    match switch.arrive(input, output, bytes) {
        Ok(()) => println!(rt; "arrive {input} {output} {bytes}: accepted"),
        Err(fault) => println!(rt;
            "arrive {input} {output} {bytes}: refused {}",
            fault.number()
        ),
    }
}

// A departure as it is printed.
#[derive(Clone, Copy)]
struct Shown<'a>(&'a Departure);

impl fmt::Display for Shown<'_> {
    fn fmt<W: fmt::Write>(&self, f: &mut fmt::Formatter<W>) -> fmt::Result {
        let d = self.0;
        write!(
            f,
            "tick {} flow {} {} serial {} arrival {} crossing {} sending {} finish {} + {}/w bytes {}",
            d.tick,
            d.input,
            d.output,
            d.serial,
            d.arrival,
            d.crossing,
            d.sending,
            d.whole,
            d.numerator,
            d.bytes
        )
    }
}

/// A step on a list of four entries: the answer, and the entries that it names.
pub fn step<S: Store, R: TieRule>(rt: &impl Print, switch: &mut Running<S, R>) -> io::Result<()> {
    let mut list = [Departure::default(); 4];
    match switch.step(&mut list) {
        Ok(count) => {
            println!(rt; "step: {count}")?;
            for d in list.iter().take(count) {
                println!(rt; "  {}", Shown(d))?;
            }
            Ok(())
        }
        Err(fault) => println!(rt; "step: refused {}", fault.number()),
    }
}

/// So many steps.
pub fn steps<S: Store, R: TieRule>(
    rt: &impl Print,
    switch: &mut Running<S, R>,
    count: usize,
) -> io::Result<()> {
    for _ in 0..count {
        step(rt, switch)?;
    }
    Ok(())
}

/// A question about a flow.
pub fn ask<S: Store, R>(
    rt: &impl Print,
    switch: &Running<S, R>,
    input: usize,
    output: usize,
) -> io::Result<()> {
    match switch.ask(input, output) {
        Ok(n) => println!(rt;
            "ask {input} {output}: weight {} waiting {} {} held {} peak {} accepted {} started {} departed {} fluid {}",
            n.weight,
            n.waiting_in,
            n.waiting_out,
            n.held,
            n.peak,
            n.accepted,
            n.started,
            n.departed,
            n.fluid
        ),
        Err(fault) => println!(rt; "ask {input} {output}: refused {}", fault.number()),
    }
}
