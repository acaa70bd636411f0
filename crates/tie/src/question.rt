//! What a tie rule is asked.

/// What a rule is asked at a port. On a switch of N ports nothing is tied and 0 bytes wait from position N on.
// Two arrays and not one of pairs: `choose` makes the ties, the switch the bytes, and two of the three rules read ties alone.
#[derive(Clone, Copy)]
pub struct Question {
    /// Which positions are tied.
    pub tied: [bool; 16],
    /// The bytes waiting at each position.
    pub waiting: [u64; 16],
}
