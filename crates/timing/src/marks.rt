//! Marks, and the one chooser of those that stand first.
ghost use Rattle.std.specs.Prelude.{◌≡◌, ℕ, Bool, true, false, Decides, slice_index_or};
ghost use Rattle.std.specs.List.{filter_map, reduce};
ghost use Rattle.timing.specs.Marks.{First, better, less, tied};
ghost use Rattle.timing.specs.Order.{earlier_asymmetric, earlier_negatively_transitive, less_asymmetric, less_negatively_transitive};
ghost use Rattle.timing.specs.Stamps.{earlier};

use super::Stamp;
use std::cmp::Reverse;

/// What stands in an order, where two may be tied: neither stands before the other.
pub trait Mark {
    ghost before: { Self → Self → Bool };

    fn is_before(&self, other: &Self) -> bool
        ensures { result ≡ before self.now other.now };

    /// So none stands before itself.
    ghost asymmetric: { (x y : Self) → before x y ≡ true → before y x ≡ false };

    /// Negative transitivity.
    ghost negatively_transitive: { (x y z : Self) → before x y ≡ false → before y z ≡ false → before x z ≡ false };
}

// The smaller stamp stands before, as exact fractions.
impl Mark for Stamp {
    ghost before = { earlier };

    ghost asymmetric = { earlier_asymmetric };

    ghost negatively_transitive = { earlier_negatively_transitive };

    fn is_before(&self, other: &Stamp) -> bool {
        self < other
    }
}

// The larger stands before: a type that has an order of std is a mark by it in a `Reverse`.
impl<T: Ord> Mark for Reverse<T> {
    ghost before = { λ x y. less T.cmp y.0 x.0 };

    ghost asymmetric = { λ x y. less_asymmetric T.cmp T.total y.0 x.0 };

    ghost negatively_transitive = { λ x y z p q. less_negatively_transitive T.cmp T.total z.0 y.0 x.0 q p };

    fn is_before(&self, other: &Reverse<T>) -> bool {
        other.0 < self.0
    }
}

// The first of the marks of the row before which none stands.
fn least<M: Mark + Copy>(marks: &[Option<M>]) -> Option<M>
    ensures { result ≡ reduce (better M.before) (filter_map (λ m. m) marks.now) }
{
    marks.iter().filter_map(|mark| *mark).reduce(|best, mark| {
        if mark.is_before(&best) { mark } else { best }
    })
}

/// At each position, whether a mark stands there and none of the row stands before it.
pub fn choose<M: Mark + Copy, const N: usize>(marks: &[Option<M>; N]) -> [bool; N]
    ensures value { result ≡ tied M.before marks.now }
    ensures each { (k : ℕ) → Decides (slice_index_or result k false) (First M.before marks.now k) }
{
    let first = least(marks);
    // by index: within the closure of `array::from_fn` the bound of an array of any length is not known, as was tried
    let mut chosen = [false; N];
    for (k, mark) in marks.iter().enumerate() {
        chosen[k] = mark
            .zip(first)
            .is_some_and(|(mark, first)| !first.is_before(&mark));
    }
    chosen
}
