//! Tables with an entry for each flow of 16 × 16 ports: the place of a flow, their meaning (specs/) and their laws (proofs/).
#![tactic(auto)]

ghost use Rattle.std.specs.Prelude.{◌≡◌, ◌+◌, ◌*◌, ◌<◌, true, false, MatchOption};
ghost use Rattle.grid.specs.Flows.{in_grid};

/// A flow of 16 × 16 ports: the input that its packets come by, and the output that they leave by. Public calls of the crates
/// above take two plain numbers, of which a `Flow` would ask more.
#[derive(Clone, Copy, PartialEq, Eq, Debug)]
pub struct Flow {
    pub input: usize,
    pub output: usize,
    ghost from_inside: { input < 16 },
    ghost to_inside: { output < 16 },
}

impl Flow {
    /// The flow of two ports, if both are below 16.
    pub fn new(input: usize, output: usize) -> Option<Flow>
        ensures { MatchOption result (in_grid input output ≡ false) (λ flow. (in_grid input output ≡ true) × (flow.input ≡ input) × (flow.output ≡ output)) }
    {
        if input < 16 && output < 16 {
            Some(Flow { input, output })
        } else {
            None
        }
    }

    /// Its cell in a table of 256: 16 × input + output.
    pub fn cell(self) -> usize
        ensures value { result ≡ 16 * self.input + self.output }
        ensures inside { result < 256 }
    {
        16 * self.input + self.output
    }
}
