//! Quiet ticks, in which nothing starts and nothing leaves.
ghost use Rattle.std.specs.Prelude.{◌≡◌, ◌-◌, max};
ghost use Rattle.switch.specs.Calls.{PassesQuiet, state_of};
ghost use Rattle.state.specs.Quiet.{input_next, inputs_next, output_next, outputs_next, next_event, at_tick, StillFor, QuietSteps, Passes};

use crate::lines::{is_busy, until_of};
use crate::port::{Port, fold_ports};
use crate::running::Running;
use plan::LAST_TICK;
use store::Store;
use tie::TieRule;

impl<S: Store, R> Running<S, R> {
    // The first tick, up to `best`, at which an input may start something.
    fn next_at_input(&self, input: Port, best: u64) -> u64
        ensures { result ≡ input_next (state_of S.Store.lists self.now) input.index best }
    {
        let until = until_of(self.crossing[input.index]);
        best.min(self.due.across[input.index].max(until))
    }

    // The same of all inputs.
    fn next_at_inputs(&self, best: u64) -> u64
        ensures { result ≡ inputs_next (state_of S.Store.lists self.now) self.now.plan.size.ports best }
    {
        fold_ports(
            self.plan.size.ports,
            best,
            |next, input| self.next_at_input(input, next),
        )
    }

    // The first tick, up to `best`, at which an output may start something; while it is busy, the tick whose step lets its
    // packet leave.
    fn next_at_output(&self, output: Port, best: u64) -> u64
        ensures { result ≡ output_next (state_of S.Store.lists self.now) output.index best }
    {
        let line = self.sending[output.index];
        let tick = if is_busy(line, self.clock) {
            until_of(line).saturating_sub(1)
        } else {
            self.due.out[output.index]
        };
        best.min(tick)
    }

    // The same of all outputs.
    fn next_at_outputs(&self, best: u64) -> u64
        ensures { result ≡ outputs_next (state_of S.Store.lists self.now) self.now.plan.size.ports best }
    {
        fold_ports(
            self.plan.size.ports,
            best,
            |next, output| self.next_at_output(output, next),
        )
    }
}

impl<S: Store, R: TieRule> Running<S, R> {
    /// Passes in one go the quiet ticks from now on, up to a limit: those whose step would start nothing and list nothing.
    /// Answers how many they are, 0 if there is none.
    pub fn pass_quiet(&mut self, limit: u64) -> u64
        ensures { PassesQuiet S.Store.lists S.Store.size R.TieRule.answer R.TieRule.told self.old self.new limit result }
    {
        let end = self.next_at_outputs(self.next_at_inputs(limit.min(LAST_TICK)));
        let ticks = end.saturating_sub(self.clock);
        self.clock = self.clock.max(end);
        ticks
    }
}
