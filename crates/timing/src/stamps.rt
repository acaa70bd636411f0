//! Virtual starts and finishes, worked out and compared exactly.
ghost use Rattle.std.specs.Prelude.{◌≡◌, ◌*◌, ◌/◌, ◌%◌, ◌^◌, ◌<◌};
ghost use Rattle.std.specs.Option.{SomeIff};
ghost use Rattle.std.specs.Cmp.{eq_by_cmp_equiv, partial_equiv_from_equiv, partial_order_from_total};
ghost use Rattle.std.specs.Ordering.{as_partial_cmp, eq_by_cmp};
ghost use Rattle.std.proofs.Common.{rules};
ghost use Rattle.timing.specs.Order.{stamp_cmp_total};
ghost use Rattle.timing.specs.Stamps.{Given, SameFlow, last_scaled, scaled, scaled_finish, scaled_start, stamp_cmp};

use super::Stamp;
use std::cmp::Ordering;

impl Stamp {
    /// The stamp of a whole tick; none for weight 0.
    pub fn at(tick: u64, weight: u32) -> Option<Stamp>
        ensures { Given result (0 < weight) weight (weight * tick) }
    {
        if weight == 0 {
            return None;
        }
        Some(Stamp {
            tick,
            numerator: 0,
            weight,
        })
    }

    /// The whole tick.
    pub fn tick(&self) -> u64
        ensures { result ≡ self.now.tick }
    {
        self.tick
    }

    /// The numerator over the weight.
    pub fn numerator(&self) -> u32
        ensures { result ≡ self.now.numerator }
    {
        self.numerator
    }

    /// The flow's weight.
    pub fn weight(&self) -> u32
        ensures { result ≡ self.now.weight }
    {
        self.weight
    }

    /// The weight times the stamp, which is whole.
    pub fn scaled(&self) -> u128
        ensures value { result ≡ scaled self.now }
        ensures bound { result < 2 ^ 96 }
    {
        let weight = u128::from(self.weight);
        let tick = u128::from(self.tick);
        weight * tick + u128::from(self.numerator)
    }
}

/// The virtual length of a packet, bytes × parts / weight: whole ticks, and a numerator over the weight.
pub fn virtual_length(bytes: u32, parts: u32, weight: u32) -> Option<(u64, u32)>
    ensures { SomeIff result (0 < weight) (bytes * parts / weight, bytes * parts % weight) }
{
    if weight == 0 {
        return None;
    }
    let product = u64::from(bytes) * u64::from(parts);
    let weight = u64::from(weight);
    Some((product / weight, (product % weight) as u32))
}

/// The virtual start: the later of the arrival and the virtual finish of the packet accepted last in the flow,
/// which is none for a flow's first packet. No stamp for weight 0, or where the last is of another weight.
pub fn virtual_start(arrival: u64, last: Option<Stamp>, weight: u32) -> Option<Stamp>
    ensures { Given result ((0 < weight) × SameFlow weight last) weight (scaled_start weight arrival (last_scaled last)) }
{
    let arrived = Stamp::at(arrival, weight)?;
    match last {
        None => Some(arrived),
        Some(finish) if finish.weight != weight => None,
        Some(finish) => Some(finish.max(arrived)),
    }
}

/// The virtual finish: the start and the virtual length. No stamp where its tick would pass 64 bits.
pub fn virtual_finish(start: Stamp, bytes: u32, parts: u32) -> Option<Stamp>
    ensures { Given result (scaled_finish parts (scaled start) bytes < start.weight * 2 ^ 64) start.weight (scaled_finish parts (scaled start) bytes) }
{
    let (ticks, part) = virtual_length(bytes, parts, start.weight)?;
    let weight = u64::from(start.weight);
    let sum = u64::from(start.numerator) + u64::from(part);
    let tick = start.tick.checked_add(ticks + sum / weight)?;
    Some(Stamp {
        tick,
        numerator: (sum % weight) as u32,
        weight: start.weight,
    })
}

// Stamps stand in the order of their exact fractions, so that two of different weights may be equal.
impl Ord for Stamp {
    ghost cmp = { stamp_cmp };

    ghost total = { stamp_cmp_total };

    ghost matches_partial_cmp = { Prim.search rules };

    ghost matches_eq = { Prim.search rules };

    fn cmp(&self, other: &Stamp) -> Ordering {
        match self.tick.cmp(&other.tick) {
            Ordering::Equal => {
                let left = u64::from(self.numerator) * u64::from(other.weight);
                let right = u64::from(other.numerator) * u64::from(self.weight);
                left.cmp(&right)
            }
            unequal => unequal,
        }
    }
}

impl PartialOrd for Stamp {
    ghost partial_cmp = { as_partial_cmp stamp_cmp };

    ghost laws = { partial_order_from_total stamp_cmp_total };

    fn partial_cmp(&self, other: &Stamp) -> Option<Ordering> {
        Some(self.cmp(other))
    }
}

impl PartialEq for Stamp {
    ghost eq = { eq_by_cmp stamp_cmp };

    ghost laws = { partial_equiv_from_equiv (eq_by_cmp_equiv stamp_cmp_total) };

    fn eq(&self, other: &Stamp) -> bool {
        self.cmp(other).is_eq()
    }
}

impl Eq for Stamp {
    ghost laws = { eq_by_cmp_equiv stamp_cmp_total };
}
