//! The sequence of calls, made on a store and on a plain list.
use crate::plain::Plain;
use std::alloc::AllocError;
use store::{Packet, Store};
use timing::Stamp;

#[derive(Clone, Copy)]
enum Action {
    Remove,
    Note,
    Put,
}

// What is done on flow (input, output), from the next number of a pseudo-random sequence.
#[derive(Clone, Copy)]
struct Call {
    input: usize,
    output: usize,
    action: Action,
    k: usize,
}

fn next_seed(seed: u64) -> u64 {
    seed.wrapping_mul(6364136223846793005)
        .wrapping_add(1442695040888963407)
}

// Mostly flows of ports 0 to 3; now and then one outside ports 0 to 15.
fn call_from(seed: u64) -> Call {
    let high = seed / 4294967296;
    let input = if high % 61 == 0 { 16 } else { high / 4 % 4 };
    Call {
        input: input as usize,
        output: (high / 16 % 4) as usize,
        action: match high / 64 % 16 {
            0..=2 => Action::Remove,
            3 | 4 => Action::Note,
            _ => Action::Put,
        },
        k: (high / 1024 % 4) as usize,
    }
}

// What is compared of a packet: not its stamps, which are equal as fractions.
fn kept(packet: Packet) -> (u64, u64, u32, Option<u64>) {
    (packet.serial, packet.arrival, packet.bytes, packet.crossing)
}

fn packet(serial: u64) -> Option<Packet> {
    let start = Stamp::at(serial, 1)?;
    Some(Packet {
        serial,
        arrival: serial / 3,
        bytes: (serial % 1500) as u32,
        start,
        finish: start,
        crossing: None,
    })
}

fn put_both<S: Store>(
    store: &mut S,
    plain: &mut Plain,
    call: Call,
    serial: u64,
) -> Result<bool, AllocError> {
    let Some(packet) = packet(serial) else {
        return Ok(false);
    };
    let full = store.is_full(call.input, call.output);
    let taken = store.put(call.input, call.output, packet);
    if taken {
        plain.put(call.input, call.output, packet)?;
    }
    Ok(taken != full)
}

// Makes one call on both, and tells whether they agree on the answer and on the flow.
fn step<S: Store>(
    store: &mut S,
    plain: &mut Plain,
    call: Call,
    serial: u64,
) -> Result<bool, AllocError> {
    let few = plain.total() < store.stated_size() && call.input < 16;
    if few && store.is_full(call.input, call.output) {
        return Ok(false);
    }
    let Call {
        input,
        output,
        action,
        k,
    } = call;
    let agreed = match action {
        Action::Remove => store.remove(input, output) == plain.remove(input, output),
        Action::Note => {
            store.note(input, output, k, serial) == plain.note(input, output, k, serial)
        }
        Action::Put => put_both(store, plain, call, serial)?,
    };
    let seen = store.look(input, output, k).map(kept);
    let listed = plain.look(input, output, k).map(kept);
    let counts = store.count(input, output) == plain.count(input, output);
    Ok(agreed && counts && seen == listed)
}

// Whether a store agrees with a plain list over a sequence of calls, then over as many again after a clear.
pub(crate) fn agrees<S: Store>(
    store: &mut S,
    plain: &mut Plain,
    calls: u64,
) -> Result<bool, AllocError> {
    let mut seed = 1;
    let mut all = true;
    for _ in 0..2 {
        store.clear();
        plain.clear();
        // a loop: each call goes on from the seed before, and may want memory
        for n in 0..calls {
            seed = next_seed(seed);
            all &= step(store, plain, call_from(seed), n)?;
        }
    }
    Ok(all)
}
