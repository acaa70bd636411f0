//! The end of a step: what leaves by each output.
ghost use Rattle.std.specs.Prelude.{◌≡◌, ◌<◌, ◌≤◌, ◌++◌, length, drop};
ghost use Rattle.switch.specs.Calls.{Keeps, state_of};
ghost use Rattle.state.specs.Finishes.{ends_at, leaving, finished, finish_to, listed_to};

use crate::flow::{ledger_at, set_ledger};
use crate::port::Port;
use crate::running::Running;
use departure::Departure;
use grid::Flow;
use state::{Busy, Ledger};
use store::Store;

// What ends on an output's line at a tick.
fn ends_at(line: Option<Busy<Departure>>, tick: u64) -> Option<Departure>
    ensures { result ≡ ends_at tick line }
{
    line.filter(|busy| busy.until == tick && busy.load.input < 16)
        .map(|busy| busy.load)
}

impl<S: Store, R> Running<S, R> {
    // Lets go what leaves by an output now.
    fn finish(&mut self, port: Port) -> Option<Departure>
        ensures answer { result ≡ leaving (state_of S.Store.lists self.old) port.index }
        ensures state { state_of S.Store.lists self.new ≡ finished (state_of S.Store.lists self.old) port.index }
        ensures kept { Keeps S.Store.size self.old self.new }
    {
        let output = port.index;
        let load = ends_at(self.sending[output], self.clock)?;
        let flow = Flow {
            input: load.input,
            output,
        };
        let ledger = *ledger_at(&self.ledgers, flow);
        let _ = self.store.remove(load.input, output);
        let left = Ledger {
            departed: ledger.departed.wrapping_add(u64::from(load.bytes)),
            under_way: ledger.under_way.saturating_sub(1),
            ..ledger
        };
        set_ledger(&mut self.ledgers, flow, left);
        let longest = self.plan.size.longest;
        let crossed = ledger.under_way > 0;
        self.due
            .left(flow, crossed, &self.store, &self.ledgers, longest);
        self.sending[output] = None;
        Some(load)
    }

    // The same at all outputs, in order; what leaves is written over the first entries of the list. Answers how many they are.
    pub(crate) fn finish_all(&mut self, out: &mut [Departure]) -> usize
        requires { self.old.plan.size.ports ≤ length out.old }
        ensures answer { result ≡ length (listed_to self.old.plan.size.ports (state_of S.Store.lists self.old)) }
        ensures list { out.new ≡ listed_to self.old.plan.size.ports (state_of S.Store.lists self.old) ++ drop result out.old }
        ensures state { state_of S.Store.lists self.new ≡ finish_to self.old.plan.size.ports (state_of S.Store.lists self.old) }
        ensures kept { Keeps S.Store.size self.old self.new }
    {
        // Counted by hand: what leaves goes to the next free entry, and after a chain whose closure changes the switch no clause
        // says what was changed.
        let mut count = 0;
        for j in 0..self.plan.size.ports {
            if let Some(departure) = self.finish(Port { index: j }) {
                out[count] = departure;
                count += 1;
            }
        }
        count
    }
}
