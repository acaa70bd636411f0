//! The table of weights.
ghost use Rattle.std.specs.Prelude.{ℕ, ◌<◌, ◌≤◌};
ghost use Rattle.plan.specs.Table.{weight_in, row_sum, column_sum};

use crate::size::Size;

mod ask;
mod book;

/// The weights that are booked: that of flow (i, j) stands at 16 × i + j. The weights of each input, and
/// those of each output, sum to at most W. The table is an array of fixed size: a plan does not allocate.
#[derive(Clone, Copy)]
pub struct Plan {
    pub size: Size,
    weights: [u32; 256],
    ghost rows: { (i : ℕ) → i < size.ports → row_sum size.ports (weight_in weights) i ≤ size.parts },
    ghost columns: { (j : ℕ) → j < size.ports → column_sum size.ports (weight_in weights) j ≤ size.parts },
}
