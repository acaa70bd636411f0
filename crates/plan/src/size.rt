//! The size of a switch.
ghost use Rattle.std.specs.Prelude.{◌≡◌, ◌≤◌, Some, None, MatchResult};
ghost use Rattle.plan.specs.Refusals.{size_refusal};

use crate::fault::SizeFault;

/// N ports a side, packets of at most L bytes, and a line of W parts.
#[derive(Clone, Copy)]
pub struct Size {
    pub ports: usize,
    pub longest: u32,
    pub parts: u32,
    ghost some_ports: { 1 ≤ ports },
    ghost few_ports: { ports ≤ 16 },
    ghost some_bytes: { 1 ≤ longest },
    ghost few_bytes: { longest ≤ 1500 },
    ghost some_parts: { 1 ≤ parts },
    ghost few_parts: { parts ≤ 10000 },
}

impl Size {
    /// The size of these three numbers, or the first of them that is out of its range.
    pub fn new(ports: usize, longest: u32, parts: u32) -> Result<Size, SizeFault>
        ensures { MatchResult result (λ s. (size_refusal ports longest parts ≡ None) × (s.ports ≡ ports) × (s.longest ≡ longest) × (s.parts ≡ parts)) (λ f. size_refusal ports longest parts ≡ Some f) }
    {
        if !(1..=16).contains(&ports) {
            return Err(SizeFault::Ports);
        }
        if !(1..=1500).contains(&longest) {
            return Err(SizeFault::Longest);
        }
        if !(1..=10000).contains(&parts) {
            return Err(SizeFault::Parts);
        }
        Ok(Size {
            ports,
            longest,
            parts,
        })
    }
}
