//! An arrival: a packet is stamped and stored, or refused.
ghost use Rattle.std.specs.Prelude.{◌≡◌, OnErr};
ghost use Rattle.state.specs.Arrives.{arrive_answer, arrive_state};
ghost use Rattle.switch.specs.Calls.{Arrives, Keeps, state_of};

use crate::flow::{ledger_at, set_ledger};
use crate::ready::tick_from;
use crate::running::Running;
use crate::stamping::incoming_of;
use grid::Flow;
use plan::ArriveFault;
use state::Ledger;
use store::Store;

impl<S: Store, R> Running<S, R> {
    /// A packet comes to a flow at the present tick. It is refused for a port not below N, a length outside 1 to L, a
    /// closed flow or a full sign, in this order; then everything stays as it was.
    pub fn arrive(&mut self, input: usize, output: usize, bytes: u32) -> Result<(), ArriveFault>
        ensures { Arrives S.Store.lists S.Store.full S.Store.size self.old self.new input output bytes result }
    {
        self.accept(input, output, bytes)
    }

    // The same without the law: what is answered, and the state after it.
    fn accept(&mut self, input: usize, output: usize, bytes: u32) -> Result<(), ArriveFault>
        ensures answer { result ≡ arrive_answer (S.Store.full self.old.store.store) (state_of S.Store.lists self.old) input output bytes }
        ensures state { state_of S.Store.lists self.new ≡ arrive_state result (state_of S.Store.lists self.old) input output bytes }
        ensures refused { OnErr result (self.new ≡ self.old) }
        ensures kept { Keeps S.Store.size self.old self.new }
    {
        let weight = self.plan.weight(input, output)?;
        if bytes < 1 || bytes > self.plan.size.longest {
            return Err(ArriveFault::Length);
        }
        if weight == 0 {
            return Err(ArriveFault::Closed);
        }
        let flow = Flow { input, output };
        let ledger = *ledger_at(&self.ledgers, flow);
        let parts = self.plan.size.parts;
        let stamped = incoming_of(ledger.last, weight, self.clock, bytes, parts);
        let incoming = stamped.ok_or(ArriveFault::Full)?;
        let next = self.store.count(input, output) == ledger.under_way;
        if !self.store.put(input, output, incoming) {
            return Err(ArriveFault::Full);
        }
        let taken = Ledger {
            last: Some(incoming.finish),
            accepted: ledger.accepted.wrapping_add(u64::from(bytes)),
            ..ledger
        };
        set_ledger(&mut self.ledgers, flow, taken);
        self.due
            .arrived(flow, next.then_some(tick_from(incoming.start)));
        Ok(())
    }
}
