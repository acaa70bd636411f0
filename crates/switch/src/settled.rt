//! A settled switch, and its reports.
ghost use Rattle.std.specs.Prelude.{◌≡◌, ◌^◌, ◌<◌};
ghost use Rattle.switch.specs.Calls.{state_of};
ghost use Rattle.state.specs.Reports.{lengths, report_answer, Reports};

use crate::flow::{bytes_in, ledger_at};
use crate::running::Running;
use grid::Flow;
use plan::Plan;
use state::{Report, ReportFault};
use store::Store;

/// A switch after its last call, with all that it holds.
#[derive(Drop)]
pub struct Settled<S: Store, R> {
    running: Running<S, R>,
}

impl<S: Store, R> Running<S, R> {
    /// Ends the run, and keeps everything.
    pub fn settle(self) -> Settled<S, R>
        ensures { result.running ≡ self }
    {
        Settled { running: self }
    }
}

impl<S: Store, R> Settled<S, R> {
    /// The plan that was sealed.
    pub fn plan(&self) -> &Plan
        ensures { result.now ≡ self.now.running.plan }
    {
        &self.running.plan
    }
}

impl<S: Store, R> Settled<S, R> {
    // The lengths of a flow's stored packets added up.
    fn stored_bytes(&self, flow: Flow) -> u128
        ensures value { result ≡ lengths (S.Store.lists self.now.running.store.store flow.input flow.output) }
        ensures bound { result < 2 ^ 96 }
    {
        let store = &self.running.store;
        (0..store.count(flow.input, flow.output))
            .map(|k| u128::from(bytes_in(store.look(flow.input, flow.output, k))))
            .sum()
    }

    /// A flow's peak, and its bytes accepted and departed.
    pub fn report(&self, input: usize, output: usize) -> Result<Report, ReportFault>
        ensures answer { result ≡ report_answer (state_of S.Store.lists self.now.running) input output }
        ensures law { Reports (state_of S.Store.lists self.now.running) input output result }
    {
        self.running.plan.weight(input, output)?;
        let flow = Flow { input, output };
        let ledger = ledger_at(&self.running.ledgers, flow);
        let inside = self.stored_bytes(flow);
        if u128::from(ledger.accepted) != u128::from(ledger.departed) + inside {
            return Err(ReportFault::Unbalanced);
        }
        Ok(Report {
            peak: ledger.peak,
            accepted: ledger.accepted,
            departed: ledger.departed,
        })
    }
}
