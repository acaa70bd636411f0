//! The tie rules.
ghost use Rattle.std.specs.Prelude.{◌≡◌, ℕ, ◌+◌, ◌%◌, ◌<◌, ◌≤◌, replicate, Option, ◌≢◌};
ghost use Rattle.tie.specs.declared.question.Question.{Question};
ghost use Rattle.tie.specs.Pointers.{advanced, pointer_of};
ghost use Rattle.tie.specs.Positions.{first_from, longest, lowest};
ghost use Rattle.tie.specs.PicksTied.{PicksTied};
ghost use Rattle.tie.specs.Picked.{first_picks_tied, longest_picks_tied};

use super::{Question, first_tied, longest_tied, lowest_tied};

/// Picks one of the positions that are tied at a port. The port's code is i for input i, and N + j for output j.
pub trait TieRule {
    // Of what the rule keeps, a code and a question: the position that is picked.
    ghost answer: { Self → ℕ → Question → Option ℕ };

    // Of what the rule keeps, a code and its winner: what the rule may keep then.
    ghost told: { Self → ℕ → ℕ → Self → Type 0 };

    /// Answers a question at a port: the position that is picked.
    fn ask(&self, code: usize, question: &Question) -> Option<usize>
        ensures { result ≡ answer self.now code question.now };

    /// Tells the winner at a port.
    fn tell(&mut self, code: usize, winner: usize)
        ensures { told self.old code winner self.new };

    // Whatever the rule keeps, it picks a tied position, and none if and only if nothing is tied.
    ghost picks_tied: { (rule : Self) → PicksTied (answer rule) };
}

/// Picks the lowest tied position. It keeps nothing.
#[derive(Clone, Copy)]
pub struct Lowest;

impl TieRule for Lowest {
    ghost answer = { λ _ _ question. lowest question.tied };

    ghost told = { λ rule _ _ after. after ≡ rule };

    ghost picks_tied = { λ _. first_picks_tied (λ _. 0) };

    fn ask(&self, _code: usize, question: &Question) -> Option<usize> {
        lowest_tied(&question.tied)
    }

    fn tell(&mut self, _code: usize, _winner: usize) {}
}

/// Takes turns: each port code below 32 has a pointer, and the first tied position at or after it is picked.
#[derive(Clone, Copy)]
pub struct Turn {
    pointers: [u8; 32],
}

impl Turn {
    /// Each pointer is at first 0.
    pub fn new() -> Turn
        ensures value { result.pointers ≡ replicate 32 0 }
        ensures each { (code : ℕ) → pointer_of result code ≡ 0 }
    {
        Turn { pointers: [0; 32] }
    }

    /// The pointer of a code; 0 for one above 31.
    pub fn pointer(&self, code: usize) -> usize
        ensures value { result ≡ pointer_of self.now code }
        ensures past { 32 ≤ code → result ≡ 0 }
    {
        self.pointers
            .get(code)
            .map_or(0, |pointer| usize::from(*pointer))
    }
}

impl TieRule for Turn {
    ghost answer = { λ rule code question. first_from (pointer_of rule code) question.tied };

    ghost told = { λ rule code winner after. after ≡ advanced rule code winner };

    ghost picks_tied = { λ rule. first_picks_tied (pointer_of rule) };

    fn ask(&self, code: usize, question: &Question) -> Option<usize> {
        first_tied(self.pointer(code), &question.tied)
    }

    // The pointer of the code moves one past its winner, going round. A code above 31 moves none.
    fn tell(&mut self, code: usize, winner: usize)
        ensures value { self.new ≡ advanced self.old code winner }
        ensures here { code < 32 → pointer_of self.new code ≡ (winner + 1) % 16 }
        ensures elsewhere { (other : ℕ) → (other ≢ code) → pointer_of self.new other ≡ pointer_of self.old other }
        ensures past { 32 ≤ code → self.new ≡ self.old }
    {
        // Tried by `get_mut`: its contract says nothing of what the array ends as, so the proof does not close.
        if code < 32 {
            self.pointers[code] = ((winner % 16 + 1) % 16) as u8;
        }
    }
}

/// Picks the tied position with the most waiting bytes; of several such, the lowest. It keeps nothing.
#[derive(Clone, Copy)]
pub struct Longest;

impl TieRule for Longest {
    ghost answer = { λ _ _ question. longest question };

    ghost told = { λ rule _ _ after. after ≡ rule };

    ghost picks_tied = { λ _. longest_picks_tied };

    fn ask(&self, _code: usize, question: &Question) -> Option<usize> {
        longest_tied(question)
    }

    fn tell(&mut self, _code: usize, _winner: usize) {}
}
