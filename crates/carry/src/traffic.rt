//! The arrivals of a run file.
ghost use Rattle.carry.specs.Traffic.{Arrives, Brings};

use crate::lines::push_turned_away;
use crate::play::run_to;
use crate::stop::Stop;
use plan::ArriveFault;
use player::{NamedRule, NamedStore, Player};
use runfile::{Arrival, Fault, Rest, read_traffic};

// An arrival, whose record stands at this place: the ticks up to its own, and what becomes of it.
fn bring<S: NamedStore, R: NamedRule>(
    player: &mut Player<S, R>,
    place: usize,
    packet: Arrival,
    out: &mut Vec<u8>,
) -> Result<(), Stop>
    ensures { Brings S.NamedStore R.NamedRule player.old player.new place packet out.old out.new result }
{
    run_to(player, u64::from(packet.tick), out)?;
    let Err(fault) = player.arrive(
        usize::from(packet.input),
        usize::from(packet.output),
        u32::from(packet.length),
    ) else {
        return Ok(());
    };
    match fault {
        ArriveFault::Full => Ok(push_turned_away(out, packet)?),
        _ => Err(Stop::Refused(Fault::at(place, fault))),
    }
}

/// Plays the arrivals of a file up to its end record.
pub fn play_arrivals<S: NamedStore, R: NamedRule>(
    player: &mut Player<S, R>,
    mut rest: Rest<'_>,
    out: &mut Vec<u8>,
) -> Result<(), Stop>
    ensures { Arrives S.NamedStore R.NamedRule player.old player.new rest.entry out.old out.new result }
{
    let mut clock = 0;
    while let Some((packet, left)) = read_traffic(rest, clock)? {
        bring(player, rest.place(), packet, out)?;
        clock = packet.tick;
        rest = left;
    }
    Ok(())
}
