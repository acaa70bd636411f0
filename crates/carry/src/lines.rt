//! The lines that a file comes to, appended to a vector.
ghost use Rattle.std.specs.Prelude.{map, is_ok};
ghost use Rattle.replay.specs.Events.{left, turned_away};
ghost use Rattle.carry.specs.Items.{arriving};
ghost use Rattle.carry.specs.Lines.{event_line, event_lines, refused_line};
ghost use Rattle.carry.specs.Lists.{Adds};

use departure::Departure;
use listing::{Full, Line, Refusal};
use runfile::{Arrival, Fault};
use std::alloc::AllocError;

/// Appends a line.
pub fn push<const N: usize, L: Line<N>>(out: &mut Vec<u8>, line: &L) -> Result<(), AllocError>
    ensures { Adds (L.text line.now) out.old out.new (is_ok result) }
{
    line.append(out)
}

/// The `D` lines of packets that leave, one after another.
pub fn push_departures(out: &mut Vec<u8>, departures: &[Departure]) -> Result<(), AllocError>
    ensures { Adds (event_lines (map left departures.now)) out.old out.new (is_ok result) }
{
    for departure in departures {
        push(out, departure)?;
    }
    Ok(())
}

/// The `N` line of an arrival that finds the store full.
pub fn push_turned_away(out: &mut Vec<u8>, packet: Arrival) -> Result<(), AllocError>
    ensures { Adds (event_line (turned_away (arriving packet))) out.old out.new (is_ok result) }
{
    let line = Full {
        tick: u64::from(packet.tick),
        input: u64::from(packet.input),
        output: u64::from(packet.output),
        len: u64::from(packet.length),
    };
    push(out, &line)
}

/// The listing of a refused file: its `R` line.
pub fn push_refusal(out: &mut Vec<u8>, fault: Fault) -> Result<(), AllocError>
    ensures { Adds (refused_line fault) out.old out.new (is_ok result) }
{
    let (layer, number) = fault.cause.code();
    // the place widened by `as`: no number is made of a usize by From
    let line = Refusal {
        layer: u64::from(layer),
        number: u64::from(number),
        place: fault.place as u64,
    };
    push(out, &line)
}
