//! Which of the tied positions stands first.
ghost use Rattle.std.specs.Prelude.{◌≡◌, MatchOption};
ghost use Rattle.tie.specs.Positions.{FirstTied, LongestTied, LowestTied, Untied, first_from, longest, lowest, marks};

use crate::Question;
use std::array;
use std::cmp::Reverse;
use timing::choose;

/// The first tied position at or after the pointer, going round: 0 follows 15. A pointer counts modulo 16.
pub fn first_tied(pointer: usize, tied: &[bool; 16]) -> Option<usize>
    ensures value { result ≡ first_from pointer tied.now }
    ensures law { MatchOption result (Untied tied.now) (FirstTied pointer tied.now) }
{
    (0..16)
        .map(|steps| (pointer % 16 + steps) % 16)
        .find(|position| tied[*position])
}

/// The lowest tied position.
pub fn lowest_tied(tied: &[bool; 16]) -> Option<usize>
    ensures value { result ≡ lowest tied.now }
    ensures law { MatchOption result (Untied tied.now) (LowestTied tied.now) }
{
    first_tied(0, tied)
}

// The mark of each tied position: its waiting bytes, of which the larger count stands before.
fn marks_of(question: &Question) -> [Option<Reverse<u64>>; 16]
    ensures { result ≡ marks question.now }
{
    array::from_fn(|k| question.tied[k].then_some(Reverse(question.waiting[k])))
}

/// The tied position with the most waiting bytes; of several such, the lowest.
pub fn longest_tied(question: &Question) -> Option<usize>
    ensures value { result ≡ longest question.now }
    ensures law { MatchOption result (Untied question.now.tied) (LongestTied question.now) }
{
    lowest_tied(&choose(&marks_of(question)))
}
