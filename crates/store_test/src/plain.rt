//! A store as one list of packets, oldest first, each with its flow.
use std::alloc::{AllocError, Global};
use store::Packet;

#[derive(Clone, Copy)]
struct Waiting {
    input: usize,
    output: usize,
    packet: Packet,
}

impl Waiting {
    fn is_of(&self, input: usize, output: usize) -> bool {
        self.input == input && self.output == output
    }
}

/// The packets that wait, oldest first.
#[derive(Drop)]
pub struct Plain {
    waiting: Vec<Waiting>,
}

impl Plain {
    pub(crate) fn new(heap: Global) -> Plain {
        Plain {
            waiting: Vec::new(heap),
        }
    }

    pub(crate) fn clear(&mut self) {
        self.waiting.clear();
    }

    pub(crate) fn put(
        &mut self,
        input: usize,
        output: usize,
        packet: Packet,
    ) -> Result<(), AllocError> {
        self.waiting.push(Waiting {
            input,
            output,
            packet,
        })?;
        Ok(())
    }

    pub(crate) fn look(&self, input: usize, output: usize, k: usize) -> Option<Packet> {
        self.waiting
            .iter()
            .filter(|w| w.is_of(input, output))
            .nth(k)
            .map(|w| w.packet)
    }

    pub(crate) fn note(&mut self, input: usize, output: usize, k: usize, tick: u64) -> bool {
        let Some(w) = self
            .waiting
            .iter_mut()
            .filter(|w| w.is_of(input, output))
            .nth(k)
        else {
            return false;
        };
        w.packet = w.packet.started_across(tick);
        true
    }

    pub(crate) fn remove(&mut self, input: usize, output: usize) -> bool {
        let Some(n) = self.waiting.iter().position(|w| w.is_of(input, output)) else {
            return false;
        };
        self.waiting.remove(n);
        true
    }

    pub(crate) fn count(&self, input: usize, output: usize) -> usize {
        self.waiting
            .iter()
            .filter(|w| w.is_of(input, output))
            .count()
    }

    pub(crate) fn total(&self) -> usize {
        self.waiting.len()
    }
}
