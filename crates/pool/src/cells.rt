//! The pool of cells.
ghost use Rattle.std.specs.Prelude.{◌≡◌, []};
ghost use Rattle.pool.specs.Held.{lists_in, full_at_512, Filled};
ghost use Rattle.std.proofs.Common.{rules};

use crate::links::{FREE, Links};
use grid::Flow;
use store::{Packet, Store};

/// 512 cells, each free or in the queue of one flow: the queue of flow (i, j) is 16 × i + j. A cell that a flow gives
/// back is free again. To put, to remove, to count and to ask for a sign take a fixed number of steps; to look at the
/// k-th packet of a flow and to note its start take k steps along the flow's own queue; to clear takes 512.
// The packets stand apart from the links: what the links keep is then of numbers alone, and no write of a packet
// touches it.
#[derive(Drop)]
pub struct Pool {
    packets: [Option<Packet>; 512],
    links: Links,
    ghost filled: { Filled packets links },
}

impl Pool {
    /// A pool with every cell free.
    pub fn new() -> Pool
        ensures { lists_in result.packets result.links ≡ (λ _ _. []) }
    {
        Pool {
            packets: [None; 512],
            links: Links::new(),
        }
    }
}

impl Store for Pool {
    ghost lists = { λ s. lists_in s.packets s.links };

    ghost full = { λ s. full_at_512 (lists_in s.packets s.links) };

    ghost size = { λ _. 512 };

    ghost least = { Prim.search rules };

    ghost most = { Prim.search rules };

    ghost full_at_most = { Prim.search rules };

    ghost room = { Prim.search rules };

    ghost outside = { Prim.search rules };

    fn clear(&mut self) {
        *self = Pool::new();
    }

    fn put(&mut self, input: usize, output: usize, packet: Packet) -> bool {
        let Some(flow) = Flow::new(input, output) else {
            return false;
        };
        let Some(cell) = self.links.at(FREE, 0) else {
            return false;
        };
        self.packets[cell] = Some(packet);
        self.links.shift(FREE, flow.cell());
        true
    }

    fn look(&self, input: usize, output: usize, k: usize) -> Option<Packet> {
        let flow = Flow::new(input, output)?;
        let cell = self.links.at(flow.cell(), k)?;
        self.packets[cell]
    }

    fn count(&self, input: usize, output: usize) -> usize {
        Flow::new(input, output).map_or(0, |flow| self.links.len(flow.cell()))
    }

    fn note(&mut self, input: usize, output: usize, k: usize, tick: u64) -> bool {
        let Some(flow) = Flow::new(input, output) else {
            return false;
        };
        let Some(cell) = self.links.at(flow.cell(), k) else {
            return false;
        };
        let Some(packet) = self.packets[cell] else {
            return false;
        };
        self.packets[cell] = Some(packet.started_across(tick));
        true
    }

    fn remove(&mut self, input: usize, output: usize) -> bool {
        let Some(flow) = Flow::new(input, output) else {
            return false;
        };
        let queue = flow.cell();
        if self.links.len(queue) == 0 {
            return false;
        }
        self.links.shift(queue, FREE);
        true
    }

    fn is_full(&self, input: usize, output: usize) -> bool {
        Flow::new(input, output).is_none() || self.links.len(FREE) == 0
    }

    fn stated_size(&self) -> usize
        ensures { result ≡ 512 }
    {
        512
    }
}
