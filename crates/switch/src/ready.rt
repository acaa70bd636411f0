//! From when on a packet may start.
ghost use Rattle.std.specs.Prelude.{◌≡◌};
ghost use Rattle.state.specs.Ready.{tick_from, across_from, out_from, mark_from};
ghost use Rattle.state.specs.Crosses.{mark_across};
ghost use Rattle.state.specs.Sends.{mark_out};

use store::Packet;
use timing::Stamp;

// The first whole tick at or after a virtual time.
pub(crate) fn tick_from(stamp: Stamp) -> u128
    ensures { result ≡ tick_from stamp }
{
    u128::from(stamp.tick()) + u128::from(stamp.numerator() > 0)
}

// From when on a packet may start across: its virtual start.
pub(crate) fn across_from(packet: Option<Packet>) -> Option<u128>
    ensures { result ≡ across_from packet }
{
    packet.map(|p| tick_from(p.start))
}

// From when on a packet may start out, if its crossing has started: once it has wholly crossed, and the longest packet's
// ticks have passed since its virtual start.
pub(crate) fn out_from(packet: Option<Packet>, longest: u32) -> Option<u128>
    ensures { result ≡ out_from longest packet }
{
    let p = packet?;
    let end = u128::from(p.crossing?) + u128::from(p.bytes);
    let from = tick_from(p.start) + u128::from(longest);
    Some(end.max(from))
}

// The mark at a tick of a packet that may start from another on: its virtual finish, once that tick has come.
fn mark_from(packet: Option<Packet>, from: Option<u128>, tick: u64) -> Option<Stamp>
    ensures { result ≡ mark_from tick packet from }
{
    let p = packet?;
    (from? <= u128::from(tick)).then_some(p.finish)
}

// The mark of the oldest packet that has not started across.
pub(crate) fn mark_across(packet: Option<Packet>, tick: u64) -> Option<Stamp>
    ensures { result ≡ mark_across tick packet }
{
    mark_from(packet, across_from(packet), tick)
}

// The mark of the oldest stored packet at its output.
pub(crate) fn mark_out(packet: Option<Packet>, longest: u32, tick: u64) -> Option<Stamp>
    ensures { result ≡ mark_out longest tick packet }
{
    mark_from(packet, out_from(packet, longest), tick)
}
