//! The store of rings.
ghost use Rattle.std.specs.Prelude.{◌≡◌, ℕ, [], length};
ghost use Rattle.rings.specs.Held.{lists_in, full_at_two, AtMostTwo};
ghost use Rattle.std.proofs.Common.{arith, rules};
ghost use Rattle.grid.specs.Flows.{flow_in};
ghost use Rattle.grid.proofs.Sums.{flow_sum_le, flow_sum_at_least};
ghost use Rattle.rings.specs.Limit.{at_most_two};
ghost use Rattle.std.proofs.lemmas.Bool.Decides.{nat_tests};
ghost use Rattle.grid.proofs.Flows.{ports_inside};

use arrayvec::ArrayVec;
use grid::Flow;
use std::array;
use store::{Packet, Store};

/// The packets of each flow, at most two: those of flow (i, j) stand at 16 × i + j. Every call but clear takes a fixed
/// number of steps.
#[derive(Drop)]
pub struct Rings {
    rings: [ArrayVec<Packet, 2>; 256],
    ghost short: { AtMostTwo rings },
}

impl Rings {
    /// A store with every ring empty.
    pub fn new() -> Rings
        ensures { lists_in result.rings ≡ (λ _ _. []) }
    {
        Rings {
            rings: array::from_fn(|_| ArrayVec::new()),
        }
    }
}

impl Store for Rings {
    ghost lists = { λ s. lists_in s.rings };

    ghost full = { λ s. full_at_two (lists_in s.rings) };

    ghost size = { λ _. 2 };

    ghost least = { Prim.search rules };

    ghost most = { Prim.search rules };

    ghost full_at_most = { λ s many i j. absurd (omega (arith, flow_sum_le (λ (a b : ℕ). length (lists_in s.rings a b)) 2 (λ a b. at_most_two s.rings s.short a b))) };

    ghost room = { λ s few i j h.
        let ports = ports_inside i j h in
        let least = flow_sum_at_least (λ (a b : ℕ). length (lists_in s.rings a b)) i j ports.0 ports.1 in
        Prim.grind (arith, nat_tests) };

    ghost outside = { Prim.search rules };

    fn clear(&mut self) {
        *self = Rings::new();
    }

    fn put(&mut self, input: usize, output: usize, packet: Packet) -> bool {
        let Some(flow) = Flow::new(input, output) else {
            return false;
        };
        self.rings[flow.cell()].try_push(packet).is_ok()
    }

    fn look(&self, input: usize, output: usize, k: usize) -> Option<Packet> {
        let flow = Flow::new(input, output)?;
        self.rings[flow.cell()].get(k).copied()
    }

    fn count(&self, input: usize, output: usize) -> usize {
        Flow::new(input, output).map_or(0, |flow| self.rings[flow.cell()].len())
    }

    fn note(&mut self, input: usize, output: usize, k: usize, tick: u64) -> bool {
        let Some(flow) = Flow::new(input, output) else {
            return false;
        };
        // as a slice: the packet is lent past the call of get_mut, and of an element within a struct with a ghost field the
        // borrow checker does not cover that; put and remove call a method on the element and keep no reference
        let rings = &mut self.rings[..];
        let Some(packet) = rings[flow.cell()].get_mut(k) else {
            return false;
        };
        *packet = packet.started_across(tick);
        true
    }

    fn remove(&mut self, input: usize, output: usize) -> bool {
        let Some(flow) = Flow::new(input, output) else {
            return false;
        };
        self.rings[flow.cell()].pop_at(0).is_some()
    }

    fn is_full(&self, input: usize, output: usize) -> bool {
        Flow::new(input, output).is_none_or(|flow| self.rings[flow.cell()].is_full())
    }

    fn stated_size(&self) -> usize
        ensures { result ≡ 2 }
    {
        2
    }
}
