//! An empty plan, and the booking of a share.
ghost use Rattle.std.specs.Prelude.{◌≡◌, ℕ, ◌+◌, ◌*◌, ◌<◌, ◌≤◌, Some, None, MatchResult, map, sum, slice_index};
ghost use Rattle.std.specs.List.{range_with_len};
ghost use Rattle.grid.specs.Flows.{with_flow};
ghost use Rattle.plan.specs.Table.{weight_in, row_sum, column_sum};
ghost use Rattle.plan.specs.Weights.{weight_of, refusal_of};

use crate::fault::ShareFault;
use crate::size::Size;
use crate::table::Plan;

// The weights at n places added up, the first of them and then each `step` further.
fn add_up(weights: &[u32; 256], n: usize, first: usize, step: usize) -> u64
    requires few { n ≤ 16 }
    requires inside { (k : ℕ) → k < n → first + k * step < 256 }
    ensures { result ≡ sum (map (λ k. slice_index weights.now (first + k * step)) (range_with_len 0 n)) }
{
    (0..n).map(|k| u64::from(weights[first + k * step])).sum()
}

impl Plan {
    /// A plan in which every flow is closed.
    pub fn new(size: Size) -> Plan
        ensures size { result.size ≡ size }
        ensures weights { weight_of result ≡ (λ _ _. 0) }
    {
        Plan {
            size,
            weights: [0; 256],
        }
    }

    /// Books a weight for a flow in place of the old one. A refusal leaves the plan as it was.
    pub fn share(&mut self, input: usize, output: usize, weight: u32) -> Result<(), ShareFault>
        ensures { MatchResult result (λ _. (refusal_of self.old input output weight ≡ None) × (self.new.size ≡ self.old.size) × (weight_of self.new ≡ with_flow (weight_of self.old) input output weight)) (λ f. (refusal_of self.old input output weight ≡ Some f) × (self.new ≡ self.old)) }
    {
        let place = self.place(input, output)?;
        if weight > self.size.parts {
            return Err(ShareFault::Weight);
        }
        let n = self.size.ports;
        let mut weights = self.weights;
        weights[place] = weight;
        if add_up(&weights, n, 16 * input, 1) > u64::from(self.size.parts) {
            return Err(ShareFault::Row);
        }
        if add_up(&weights, n, output, 16) > u64::from(self.size.parts) {
            return Err(ShareFault::Column);
        }
        self.weights = weights;
        Ok(())
    }
}
