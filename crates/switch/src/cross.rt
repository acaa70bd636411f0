//! The first half of a step: what each input starts across.
ghost use Rattle.std.specs.Prelude.{◌≡◌, ◌-◌, ◌<◌, not, map};
ghost use Rattle.switch.specs.Calls.{Keeps, KeepsSize, state_of};
ghost use Rattle.state.specs.Lines.{busy_at};
ghost use Rattle.timing.specs.Stamps.{earlier};
ghost use Rattle.timing.specs.Marks.{tied};
ghost use Rattle.law.specs.Rules.{asked};
ghost use Rattle.tie.specs.declared.question.Question.{Question};
ghost use Rattle.state.specs.Crosses.{mark_across, marks_across, waits_across, question_across, next_across, crossed_with, Crosses, Crossings};

use crate::flow::{ledger_at, set_ledger};
use crate::lines::is_busy;
use crate::port::{Port, by_port};
use crate::ready::{mark_across, out_from};
use crate::running::Running;
use grid::Flow;
use state::{Busy, Ledger};
use store::{Packet, Store};
use tie::{Question, TieRule};
use timing::{Stamp, choose};

// What a line asks the rule: which of its soonest marks are tied, and how many bytes wait. It is inlined, so that LLVM leaves the
// bytes out where a rule makes nothing of them.
#[inline(always)]
pub(crate) fn question(marks: [Option<Stamp>; 16], waiting: [u64; 16]) -> Question
    ensures { (result.tied ≡ tied earlier marks) × (result.waiting ≡ waiting) }
{
    Question {
        tied: choose(&marks),
        waiting,
    }
}

impl<S: Store, R> Running<S, R> {
    // The oldest packet of a flow that has not started across.
    fn next_across(&self, flow: Flow) -> Option<Packet>
        ensures { result ≡ next_across (state_of S.Store.lists self.now) flow.input flow.output }
    {
        let ledger = ledger_at(&self.ledgers, flow);
        self.store.look(flow.input, flow.output, ledger.under_way)
    }

    // The mark of the packet that is next from an input to an output.
    fn mark_at_input(&self, flow: Flow) -> Option<Stamp>
        ensures { result ≡ mark_across self.now.clock (next_across (state_of S.Store.lists self.now) flow.input flow.output) }
    {
        mark_across(self.next_across(flow), self.clock)
    }

    // The marks at an input, by output.
    fn marks_across(&self, input: Port) -> [Option<Stamp>; 16]
        ensures { result ≡ marks_across (state_of S.Store.lists self.now) input.index }
    {
        by_port(|output| self.mark_at_input(input.to(output)))
    }

    // The bytes that wait at an input, by output.
    fn waits_across(&self, input: Port) -> [u64; 16]
        ensures { result ≡ waits_across (state_of S.Store.lists self.now) input.index }
    {
        by_port(|output| {
            let ledger = ledger_at(&self.ledgers, input.to(output));
            ledger.accepted.saturating_sub(ledger.started)
        })
    }

    // What an input asks the rule.
    fn question_across(&self, input: Port) -> Question
        ensures { result ≡ question_across (state_of S.Store.lists self.now) input.index }
    {
        question(self.marks_across(input), self.waits_across(input))
    }

    // Starts the oldest packet of a flow that has not started across, if there is one.
    fn start_across(&mut self, flow: Flow)
        ensures state { state_of S.Store.lists self.new ≡ crossed_with (next_across (state_of S.Store.lists self.old) flow.input flow.output) (state_of S.Store.lists self.old) flow.input flow.output }
        ensures kept { Keeps S.Store.size self.old self.new }
    {
        let Some(packet) = self.next_across(flow) else {
            return;
        };
        let ledger = *ledger_at(&self.ledgers, flow);
        let _ = self
            .store
            .note(flow.input, flow.output, ledger.under_way, self.clock);
        let bytes = u64::from(packet.bytes);
        let started = ledger.started.wrapping_add(bytes);
        let starting = Ledger {
            started,
            peak: ledger.peak.max(started.saturating_sub(ledger.departed)),
            under_way: ledger.under_way.wrapping_add(1),
            ..ledger
        };
        set_ledger(&mut self.ledgers, flow, starting);
        let longest = self.plan.size.longest;
        let oldest = ledger.under_way == 0;
        let noted = oldest.then_some(packet.started_across(self.clock));
        let next = out_from(noted, longest);
        let again = oldest && packet.crossing.is_some();
        self.due.renew_input(flow, &self.store, &self.ledgers);
        self.due.started(flow, next, again, &self.store, longest);
        self.crossing[flow.input] = Some(Busy {
            load: flow.output,
            until: self.clock.wrapping_add(bytes),
        });
    }
}

impl<S: Store, R: TieRule> Running<S, R> {
    // What the rule picks at a port code: none while the line is busy. Only of a free line is the question made.
    pub(crate) fn choose<T: Copy, F: FnOnce() -> Question>(
        &self,
        line: Option<Busy<T>>,
        code: usize,
        question: F,
    ) -> Option<usize>
        requires { F.IsAlwaysCallable question }
        ensures { (asks : Question) → ((given : Question) → F.post question given → given ≡ asks) → result ≡ asked (R.TieRule.answer self.now.rule) code (busy_at self.now.clock line) asks }
    {
        if is_busy(line, self.clock) {
            return None;
        }
        self.rule.ask(code, &question())
    }

    // An input's turn in a step: it starts what is chosen, and tells the rule. Before something is due there nothing is tied,
    // and no rule picks anything.
    fn cross(&mut self, port: Port)
        ensures turn { Crosses R.TieRule.answer R.TieRule.told port.index (state_of S.Store.lists self.old) self.old.rule (state_of S.Store.lists self.new) self.new.rule }
        ensures size { KeepsSize S.Store.size self.old self.new }
    {
        let input = port.index;
        if self.clock < self.due.across[input] {
            return;
        }
        let line = self.crossing[input];
        let Some(output) = self.choose(line, input, || self.question_across(port)) else {
            return;
        };
        self.start_across(Flow { input, output });
        self.rule.tell(input, output);
    }

    // The turns of all inputs, in order.
    pub(crate) fn cross_all(&mut self)
        ensures turns { Crossings R.TieRule.answer R.TieRule.told (state_of S.Store.lists self.old) self.old.rule self.old.plan.size.ports (state_of S.Store.lists self.new) self.new.rule }
        ensures size { KeepsSize S.Store.size self.old self.new }
    {
        // a `for`: of a chain whose closure changes the switch no clause says what was changed
        for i in 0..self.plan.size.ports {
            self.cross(Port { index: i });
        }
    }
}
