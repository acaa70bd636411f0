//! Questions on a plan.
ghost use Rattle.std.specs.Prelude.{◌≡◌, ◌+◌, ◌*◌, ◌<◌, ◌≤◌, ltb, if◌then◌else◌, false, Ok, Err, MatchResult, nat_lt, slice_index};
ghost use Rattle.std.specs.List.{count_by, range_with_len};
ghost use Rattle.plan.specs.Table.{open_into};
ghost use Rattle.plan.specs.Weights.{weight_of, has_flow};

use crate::fault::PortFault;
use crate::table::Plan;
use grid::Flow;

// How many of n inputs have a weight for output j.
fn count_open(weights: &[u32; 256], n: usize, j: usize) -> usize
    requires { (n ≤ 16) × (j < 16) }
    ensures { result ≡ count_by (λ i. nat_lt 0 (slice_index weights.now (16 * i + j))) (range_with_len 0 n) }
{
    (0..n).filter(|i| weights[16 * *i + j] > 0).count()
}

impl Plan {
    // Where the weight of a flow stands in the table.
    pub(super) fn place(&self, input: usize, output: usize) -> Result<usize, PortFault>
        ensures { MatchResult result (λ k. (input < self.now.size.ports) × (output < self.now.size.ports) × (k ≡ 16 * input + output)) (λ f. (f ≡ PortFault.Port) × (has_flow self.now input output ≡ false)) }
    {
        let n = self.size.ports;
        if input >= n || output >= n {
            return Err(PortFault::Port);
        }
        Ok(Flow { input, output }.cell())
    }

    /// The weight of a flow.
    pub fn weight(&self, input: usize, output: usize) -> Result<u32, PortFault>
        ensures { result ≡ (if has_flow self.now input output then Ok (weight_of self.now input output) else Err PortFault.Port) }
    {
        Ok(self.weights[self.place(input, output)?])
    }

    /// Whether a flow has a share at all.
    pub fn is_open(&self, input: usize, output: usize) -> Result<bool, PortFault>
        ensures { result ≡ (if has_flow self.now input output then Ok (nat_lt 0 (weight_of self.now input output)) else Err PortFault.Port) }
    {
        Ok(self.weight(input, output)? > 0)
    }

    /// How many open flows enter an output.
    pub fn open_into(&self, output: usize) -> Result<usize, PortFault>
        ensures { result ≡ (if ltb output self.now.size.ports then Ok (open_into self.now.size.ports (weight_of self.now) output) else Err PortFault.Port) }
    {
        let n = self.size.ports;
        if output >= n {
            return Err(PortFault::Port);
        }
        Ok(count_open(&self.weights, n, output))
    }
}
