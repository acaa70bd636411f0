//! A step of the switch: one tick.
ghost use Rattle.switch.specs.Calls.{Steps};

use crate::running::Running;
use departure::Departure;
use plan::StepFault;
use store::Store;
use tie::TieRule;

impl<S: Store, R: TieRule> Running<S, R> {
    /// From tick t to tick t + 1. Fills the first entries of the list with the departures, by output, leaves the others, and
    /// answers how many it filled. A list shorter than N is refused, then a clock at its last tick; then everything stays
    /// as it was.
    pub fn step(&mut self, out: &mut [Departure]) -> Result<usize, StepFault>
        ensures { Steps S.Store.lists S.Store.size R.TieRule.answer R.TieRule.told self.old self.new out.old out.new result }
    {
        self.advance(out)
    }
}
