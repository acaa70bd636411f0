//! The fluid amount of a flow, from its totals.
ghost use Rattle.std.specs.Prelude.{◌≡◌, ◌-◌, ◌*◌, ◌^◌, ◌<◌, min, List};
ghost use Rattle.timing.specs.Fluid.{Accepted, Arrived, accepted_bytes, fluid, last_finish};
ghost use Rattle.timing.specs.Stamps.{last_scaled};

use super::Stamp;

/// The fluid amount at a tick, in parts of a byte: the bytes accepted so far, less what the last virtual finish is ahead of
/// the tick. It is held at the largest 64-bit number, which a flow does not pass while weight × tick is below 2^64.
pub fn fluid_amount(parts: u32, weight: u32, accepted: u64, last: Option<Stamp>, tick: u64) -> u64
    ensures value { result ≡ min (2 ^ 64 - 1) (parts * accepted - (last_scaled last - weight * tick)) }
    ensures exact { (ps : List Accepted) → accepted_bytes ps ≡ accepted → last_finish parts weight 0 ps ≡ last_scaled last → Arrived tick ps → weight * tick < 2 ^ 64 → result ≡ fluid parts weight tick 0 ps }
{
    let finish = last.map_or(0, |stamp| stamp.scaled());
    let reached = u128::from(weight) * u128::from(tick);
    let ahead = finish.saturating_sub(reached);
    let amount = (u128::from(parts) * u128::from(accepted)).saturating_sub(ahead);
    u64::try_from(amount).unwrap_or(u64::MAX)
}
