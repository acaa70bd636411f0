//! The meaning of a store.
ghost use Rattle.std.specs.Prelude.{◌≡◌, ℕ, ◌<◌, ◌≤◌, Bool, true, false, not, List, [], ◌∷◌, ◌++◌, length, drop, if◌then◌else◌, nat_lt};
ghost use Rattle.std.specs.List.{slice_get};
ghost use Rattle.grid.specs.Flows.{in_grid, with_flow};
ghost use Rattle.store.specs.Stored.{stored, noted};
ghost use Rattle.store.specs.declared.packet.Packet.{Packet as Held};
ghost use Rattle.store.specs.declared.meaning.TheConstants.{MOST_STORED};

use crate::packet::Packet;

/// The most packets that any store holds in all, and its largest stated size.
pub const MOST_STORED: usize = 65_536;

/// That many they are, and no other number.
pub fn most_stored_stands()
    ensures { MOST_STORED ≡ 65536 }
{}

/// Keeps the packets of 16 × 16 flows. It means a list of packets for each flow, oldest first, a full sign for each
/// flow, and a stated size that no call alters. Every call takes any arguments; one that is refused changes nothing,
/// and no call touches the list of another flow.
pub trait Store {
    ghost lists: { Self → ℕ → ℕ → List Held };

    ghost full: { Self → ℕ → ℕ → Bool };

    ghost size: { Self → ℕ };

    /// Empties every list.
    fn clear(&mut self)
        ensures lists { lists self.new ≡ (λ _ _. []) }
        ensures size { size self.new ≡ size self.old };

    /// Adds a packet at the end of its flow, and tells whether: it is refused if the flow's sign is up.
    fn put(&mut self, input: usize, output: usize, packet: Packet) -> bool
        ensures granted { result ≡ not (full self.old input output) }
        ensures lists { lists self.new ≡ (if result then with_flow (lists self.old) input output (lists self.old input output ++ packet ∷ []) else lists self.old) }
        ensures size { size self.new ≡ size self.old }
        ensures refused { result ≡ false → self.new ≡ self.old };

    /// The k-th oldest packet of a flow, counted from 0.
    fn look(&self, input: usize, output: usize, k: usize) -> Option<Packet>
        ensures { result ≡ slice_get (lists self.now input output) k };

    /// How many packets of a flow are stored.
    fn count(&self, input: usize, output: usize) -> usize
        ensures { result ≡ length (lists self.now input output) };

    /// Writes the tick at which the k-th oldest packet starts to cross, and tells whether there is such a packet.
    fn note(&mut self, input: usize, output: usize, k: usize, tick: u64) -> bool
        ensures granted { result ≡ nat_lt k (length (lists self.old input output)) }
        ensures lists { lists self.new ≡ (if result then with_flow (lists self.old) input output (noted k tick (lists self.old input output)) else lists self.old) }
        ensures size { size self.new ≡ size self.old }
        ensures refused { result ≡ false → self.new ≡ self.old };

    /// Removes the oldest packet of a flow, and tells whether there was one; then the flow's sign is down.
    fn remove(&mut self, input: usize, output: usize) -> bool
        ensures granted { result ≡ nat_lt 0 (length (lists self.old input output)) }
        ensures lists { lists self.new ≡ (if result then with_flow (lists self.old) input output (drop 1 (lists self.old input output)) else lists self.old) }
        ensures sign { result ≡ true → full self.new input output ≡ false }
        ensures size { size self.new ≡ size self.old }
        ensures refused { result ≡ false → self.new ≡ self.old };

    /// Whether a flow's sign is up.
    fn is_full(&self, input: usize, output: usize) -> bool
        ensures { result ≡ full self.now input output };

    /// So many packets are stored before any sign of ports 0 to 15 goes up.
    fn stated_size(&self) -> usize
        ensures { result ≡ size self.now };

    // the stated size is 1 to the most that any store holds
    ghost least: { (s : Self) → 1 ≤ size s };

    ghost most: { (s : Self) → size s ≤ MOST_STORED };

    // with so many packets in all, every sign is up
    ghost full_at_most: { (s : Self) → MOST_STORED ≤ stored (lists s) → (i j : ℕ) → full s i j ≡ true };

    // with fewer packets in all than the stated size, no sign is up
    ghost room: { (s : Self) → stored (lists s) < size s → (i j : ℕ) → in_grid i j ≡ true → full s i j ≡ false };

    // outside ports 0 to 15 a list is empty and a sign up
    ghost outside: { (s : Self) (i j : ℕ) → in_grid i j ≡ false → (lists s i j ≡ []) × (full s i j ≡ true) };
}
