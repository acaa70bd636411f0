//! The numbers of a flow.
ghost use Rattle.std.specs.Prelude.{◌≡◌, ◌<◌};
ghost use Rattle.state.specs.Asks.{on_lines, numbers_of};
ghost use Rattle.switch.specs.Calls.{Asks, state_of};

use crate::flow::ledger_at;
use crate::lines::carries;
use crate::running::Running;
use grid::Flow;
use plan::PortFault;
use state::Numbers;
use store::Store;
use timing::fluid_amount;

impl<S: Store, R> Running<S, R> {
    // How many packets of a flow the lines of its ports carry.
    fn on_lines(&self, flow: Flow) -> usize
        ensures { result ≡ on_lines (state_of S.Store.lists self.now) flow.input flow.output }
    {
        let (input, output) = (flow.input, flow.output);
        let crossing = carries(self.crossing[input], |load| load, output, self.clock);
        let sending = carries(self.sending[output], |load| load.input, input, self.clock);
        usize::from(crossing) + usize::from(sending)
    }

    // The numbers of a flow of this weight.
    fn numbers(&self, flow: Flow, weight: u32) -> Numbers
        ensures { result ≡ numbers_of (state_of S.Store.lists self.now) flow.input flow.output weight }
    {
        let ledger = ledger_at(&self.ledgers, flow);
        let stored = self.store.count(flow.input, flow.output);
        Numbers {
            weight,
            waiting_in: stored.saturating_sub(ledger.under_way),
            waiting_out: ledger.under_way.saturating_sub(self.on_lines(flow)),
            held: ledger.started.saturating_sub(ledger.departed),
            peak: ledger.peak,
            accepted: ledger.accepted,
            started: ledger.started,
            departed: ledger.departed,
            fluid: fluid_amount(
                self.plan.size.parts,
                weight,
                ledger.accepted,
                ledger.last,
                self.clock,
            ),
        }
    }

    /// The numbers of a flow. A port not below N is refused.
    pub fn ask(&self, input: usize, output: usize) -> Result<Numbers, PortFault>
        ensures { Asks S.Store.lists S.Store.size self.now input output result }
    {
        let weight = self.plan.weight(input, output)?;
        Ok(self.numbers(Flow { input, output }, weight))
    }
}
