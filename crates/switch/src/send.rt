//! The second half of a step: what each output starts. And the whole of a step.
ghost use Rattle.std.specs.Prelude.{◌≡◌, ◌-◌, ◌^◌, ◌<◌, ◌≤◌, cond, ◌++◌, length, OnErr};
ghost use Rattle.switch.specs.Calls.{KeepsSize, state_of};
ghost use Rattle.state.specs.Sends.{mark_out, marks_out, crossing_bytes, waits_out, question_out, next_out, departure_of, sent_with, Sends, Sendings, Stepped, ticked};
ghost use Rattle.state.specs.Steps.{StepsSo};

use crate::cross::question;
use crate::flow::{bytes_in, ledger_at};
use crate::lines::carries;
use crate::port::{Port, by_port};
use crate::ready::mark_out;
use crate::running::Running;
use departure::Departure;
use grid::Flow;
use plan::{LAST_TICK, StepFault};
use state::Busy;
use store::{Packet, Store};
use tie::{Question, TieRule};
use timing::Stamp;

// The departure of a packet that starts out at a tick.
fn departure_of(packet: Packet, flow: Flow, tick: u64) -> Departure
    ensures { result ≡ departure_of tick flow.input flow.output packet }
{
    Departure {
        tick: tick.wrapping_add(u64::from(packet.bytes)),
        input: flow.input,
        output: flow.output,
        serial: packet.serial,
        arrival: packet.arrival,
        crossing: packet.crossing.unwrap_or(0),
        sending: tick,
        whole: packet.finish.tick(),
        numerator: u64::from(packet.finish.numerator()),
        bytes: packet.bytes,
    }
}

impl<S: Store, R> Running<S, R> {
    // The oldest stored packet of a flow.
    fn next_out(&self, flow: Flow) -> Option<Packet>
        ensures { result ≡ next_out (state_of S.Store.lists self.now) flow.input flow.output }
    {
        self.store.look(flow.input, flow.output, 0)
    }

    // The mark of that packet at its output.
    fn mark_at_output(&self, flow: Flow) -> Option<Stamp>
        ensures { result ≡ mark_out self.now.plan.size.longest self.now.clock (next_out (state_of S.Store.lists self.now) flow.input flow.output) }
    {
        mark_out(self.next_out(flow), self.plan.size.longest, self.clock)
    }

    // The bytes of a flow that are crossing.
    fn crossing_bytes(&self, flow: Flow) -> u64
        ensures { result ≡ crossing_bytes (state_of S.Store.lists self.now) flow.input flow.output }
    {
        if !carries(
            self.crossing[flow.input],
            |load| load,
            flow.output,
            self.clock,
        ) {
            return 0;
        }
        let newest = ledger_at(&self.ledgers, flow).under_way.saturating_sub(1);
        u64::from(bytes_in(self.store.look(flow.input, flow.output, newest)))
    }

    // The marks at an output, by input.
    fn marks_out(&self, output: Port) -> [Option<Stamp>; 16]
        ensures { result ≡ marks_out (state_of S.Store.lists self.now) output.index }
    {
        by_port(|input| self.mark_at_output(input.to(output)))
    }

    // The bytes that wait at an output while it is free, by input.
    fn waits_out(&self, output: Port) -> [u64; 16]
        ensures { result ≡ waits_out (state_of S.Store.lists self.now) output.index }
    {
        by_port(|input| {
            let flow = input.to(output);
            let ledger = ledger_at(&self.ledgers, flow);
            let held = ledger.started.saturating_sub(ledger.departed);
            held.saturating_sub(self.crossing_bytes(flow))
        })
    }

    // What an output asks the rule.
    fn question_out(&self, output: Port) -> Question
        ensures { result ≡ question_out (state_of S.Store.lists self.now) output.index }
    {
        question(self.marks_out(output), self.waits_out(output))
    }

    // Starts the oldest packet of a flow on its output, if there is one. It stays stored until it has left.
    fn start_out(&mut self, flow: Flow)
        ensures state { state_of S.Store.lists self.new ≡ sent_with (next_out (state_of S.Store.lists self.old) flow.input flow.output) (state_of S.Store.lists self.old) flow.input flow.output }
        ensures store { self.new.store ≡ self.old.store }
        ensures rule { self.new.rule ≡ self.old.rule }
    {
        let Some(packet) = self.next_out(flow) else {
            return;
        };
        self.sending[flow.output] = Some(Busy {
            load: departure_of(packet, flow, self.clock),
            until: self.clock.wrapping_add(u64::from(packet.bytes)),
        });
    }
}

impl<S: Store, R: TieRule> Running<S, R> {
    // An output's turn in a step. As at an input, nothing is tied before something is due.
    // Not one function with an input's turn: the two halves of a step share only the generic parts, and their effects differ.
    fn send(&mut self, port: Port)
        ensures turn { Sends R.TieRule.answer R.TieRule.told port.index (state_of S.Store.lists self.old) self.old.rule (state_of S.Store.lists self.new) self.new.rule }
        ensures store { self.new.store ≡ self.old.store }
    {
        let output = port.index;
        if self.clock < self.due.out[output] {
            return;
        }
        let line = self.sending[output];
        let code = self.plan.size.ports + output;
        let Some(input) = self.choose(line, code, || self.question_out(port)) else {
            return;
        };
        self.start_out(Flow { input, output });
        self.rule.tell(code, input);
    }

    // The turns of all outputs, in order.
    fn send_all(&mut self)
        ensures turns { Sendings R.TieRule.answer R.TieRule.told (state_of S.Store.lists self.old) self.old.rule self.old.plan.size.ports (state_of S.Store.lists self.new) self.new.rule }
        ensures store { self.new.store ≡ self.old.store }
    {
        // a `for`, for the reason given in `cross_all`
        for j in 0..self.plan.size.ports {
            self.send(Port { index: j });
        }
    }

    // One step, from tick t to tick t + 1: what is answered and listed, and the state after it.
    pub(crate) fn advance(&mut self, out: &mut [Departure]) -> Result<usize, StepFault>
        ensures step { StepsSo R.TieRule.answer R.TieRule.told (state_of S.Store.lists self.old) self.old.rule (state_of S.Store.lists self.new) self.new.rule out.old out.new result }
        ensures refused { OnErr result ((self.new ≡ self.old) × (out.new ≡ out.old)) }
        ensures size { KeepsSize S.Store.size self.old self.new }
    {
        if out.len() < self.plan.size.ports {
            return Err(StepFault::Short);
        }
        if self.clock >= LAST_TICK {
            return Err(StepFault::Last);
        }
        self.cross_all();
        self.send_all();
        self.clock = self.clock.wrapping_add(1);
        Ok(self.finish_all(out))
    }
}
