//! The numbering of packets over any store.
ghost use Rattle.std.specs.Prelude.{◌≡◌, ◌+◌, ◌%◌, ◌^◌, true, false, not, [], ◌∷◌, ◌++◌, length, drop, if◌then◌else◌, nat_lt};
ghost use Rattle.std.specs.List.{slice_get};
ghost use Rattle.grid.specs.Flows.{with_flow};
ghost use Rattle.store.specs.Stored.{noted, numbered};
ghost use Rattle.store.specs.Counts.{counts};

use crate::meaning::Store;
use crate::packet::{Incoming, Packet};
use grid::Flow;

/// A store whose packets are numbered: the lists, the signs and the stated size of the store below, and for each flow
/// how many packets were taken since the last clear, modulo 2^64. The counts are an array of fixed size: a store does not
/// allocate.
#[derive(Drop)]
pub struct Numbered<S> {
    store: S,
    taken: [u64; 256],
}

impl<S: Store> Numbered<S> {
    /// The layer over a store, which it clears.
    pub fn new(mut store: S) -> Numbered<S>
        ensures lists { S.Store.lists result.store ≡ (λ _ _. []) }
        ensures counts { counts result ≡ (λ _ _. 0) }
        ensures size { S.Store.size result.store ≡ S.Store.size store }
    {
        store.clear();
        Numbered {
            store,
            taken: [0; 256],
        }
    }

    /// Empties every list and counts anew.
    pub fn clear(&mut self)
        ensures lists { S.Store.lists self.new.store ≡ (λ _ _. []) }
        ensures counts { counts self.new ≡ (λ _ _. 0) }
        ensures size { S.Store.size self.new.store ≡ S.Store.size self.old.store }
    {
        self.store.clear();
        self.taken = [0; 256];
    }

    /// Adds a packet at the end of its flow, under the count of those taken before it, and tells whether: it is refused
    /// if the flow's sign is up.
    pub fn put(&mut self, input: usize, output: usize, incoming: Incoming) -> bool
        ensures granted { result ≡ not (S.Store.full self.old.store input output) }
        ensures lists { S.Store.lists self.new.store ≡ (if result then with_flow (S.Store.lists self.old.store) input output (S.Store.lists self.old.store input output ++ numbered (counts self.old input output) incoming ∷ []) else S.Store.lists self.old.store) }
        ensures counts { counts self.new ≡ (if result then with_flow (counts self.old) input output ((counts self.old input output + 1) % 2 ^ 64) else counts self.old) }
        ensures size { S.Store.size self.new.store ≡ S.Store.size self.old.store }
        ensures refused { result ≡ false → self.new ≡ self.old }
    {
        let Some(flow) = Flow::new(input, output) else {
            return false;
        };
        let cell = flow.cell();
        let serial = self.taken[cell];
        let granted = self.store.put(input, output, incoming.numbered(serial));
        if granted {
            self.taken[cell] = serial.wrapping_add(1);
        }
        granted
    }

    /// The k-th oldest packet of a flow, counted from 0.
    pub fn look(&self, input: usize, output: usize, k: usize) -> Option<Packet>
        ensures { result ≡ slice_get (S.Store.lists self.now.store input output) k }
    {
        self.store.look(input, output, k)
    }

    /// How many packets of a flow are stored.
    pub fn count(&self, input: usize, output: usize) -> usize
        ensures { result ≡ length (S.Store.lists self.now.store input output) }
    {
        self.store.count(input, output)
    }

    /// Writes the tick at which the k-th oldest packet starts to cross, and tells whether there is such a packet.
    pub fn note(&mut self, input: usize, output: usize, k: usize, tick: u64) -> bool
        ensures granted { result ≡ nat_lt k (length (S.Store.lists self.old.store input output)) }
        ensures lists { S.Store.lists self.new.store ≡ (if result then with_flow (S.Store.lists self.old.store) input output (noted k tick (S.Store.lists self.old.store input output)) else S.Store.lists self.old.store) }
        ensures counts { counts self.new ≡ counts self.old }
        ensures size { S.Store.size self.new.store ≡ S.Store.size self.old.store }
        ensures refused { result ≡ false → self.new ≡ self.old }
    {
        self.store.note(input, output, k, tick)
    }

    /// Removes the oldest packet of a flow, and tells whether there was one; then the flow's sign is down.
    pub fn remove(&mut self, input: usize, output: usize) -> bool
        ensures granted { result ≡ nat_lt 0 (length (S.Store.lists self.old.store input output)) }
        ensures lists { S.Store.lists self.new.store ≡ (if result then with_flow (S.Store.lists self.old.store) input output (drop 1 (S.Store.lists self.old.store input output)) else S.Store.lists self.old.store) }
        ensures sign { result ≡ true → S.Store.full self.new.store input output ≡ false }
        ensures counts { counts self.new ≡ counts self.old }
        ensures size { S.Store.size self.new.store ≡ S.Store.size self.old.store }
        ensures refused { result ≡ false → self.new ≡ self.old }
    {
        self.store.remove(input, output)
    }

    /// Whether a flow's sign is up.
    pub fn is_full(&self, input: usize, output: usize) -> bool
        ensures { result ≡ S.Store.full self.now.store input output }
    {
        self.store.is_full(input, output)
    }

    /// The stated size of the store below.
    pub fn stated_size(&self) -> usize
        ensures { result ≡ S.Store.size self.now.store }
    {
        self.store.stated_size()
    }
}
