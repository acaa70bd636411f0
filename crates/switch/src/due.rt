//! From when on each port may start something, its line left aside.
ghost use Rattle.std.specs.Prelude.{◌≡◌, length, replicate, slice_index, slice_set, if◌then◌else◌};
ghost use Rattle.plan.specs.declared.fault.TheConstants.{LAST_TICK as last};
ghost use Rattle.state.specs.Due.{sooner_of, across_due, out_due};
ghost use Rattle.state.specs.State.{ledger_in};

use crate::flow::ledger_at;
use crate::port::{Port, fold_ports};
use crate::ready::{across_from, out_from};
use grid::Flow;
use plan::LAST_TICK;
use state::Ledger;
use store::{Numbered, Store};

// The tick from which on each input, and each output, may start something: before it a step need not look at its packets.
#[derive(Clone, Copy)]
pub(crate) struct Due {
    pub(crate) across: [u64; 16],
    pub(crate) out: [u64; 16],
    ghost inputs: { length across ≡ 16 },
    ghost outputs: { length out ≡ 16 },
}

// The sooner of a tick and of another, if there is one.
fn sooner(best: u64, tick: Option<u128>) -> u64
    ensures { result ≡ sooner_of best tick }
{
    tick.map_or(best, |tick| tick.min(u128::from(best)) as u64)
}

// The tick of an input, by the oldest packet of each of its flows that has not started across.
fn across_due<S: Store>(store: &Numbered<S>, ledgers: &[Ledger; 256], input: Port) -> u64
    ensures { result ≡ across_due (S.Store.lists store.now.store) (ledger_in ledgers.now) input.index }
{
    fold_ports(16, LAST_TICK, |next, output| {
        let under_way = ledger_at(ledgers, input.to(output)).under_way;
        sooner(
            next,
            across_from(store.look(input.index, output.index, under_way)),
        )
    })
}

// The tick of an output, by the oldest packet of each of its flows.
fn out_due<S: Store>(store: &Numbered<S>, longest: u32, output: Port) -> u64
    ensures { result ≡ out_due longest (S.Store.lists store.now.store) output.index }
{
    fold_ports(
        16,
        LAST_TICK,
        |next, input| sooner(
            next,
            out_from(store.look(input.index, output.index, 0), longest),
        ),
    )
}

impl Due {
    // The ticks of a switch with nothing inside.
    pub(crate) fn new() -> Due
        ensures { (result.across ≡ replicate 16 last) × (result.out ≡ replicate 16 last) }
    {
        Due {
            across: [LAST_TICK; 16],
            out: [LAST_TICK; 16],
        }
    }

    // Works out anew the tick of a flow's input.
    pub(crate) fn renew_input<S: Store>(
        &mut self,
        flow: Flow,
        store: &Numbered<S>,
        ledgers: &[Ledger; 256],
    )
        ensures across { self.new.across ≡ slice_set self.old.across flow.input (across_due (S.Store.lists store.now.store) (ledger_in ledgers.now) flow.input) }
        ensures out { self.new.out ≡ self.old.out }
    {
        let input = flow.input;
        self.across[input] = across_due(store, ledgers, Port { index: input });
    }

    // Works out anew the tick of a flow's output.
    fn renew_output<S: Store>(&mut self, flow: Flow, store: &Numbered<S>, longest: u32)
        ensures across { self.new.across ≡ self.old.across }
        ensures out { self.new.out ≡ slice_set self.old.out flow.output (out_due longest (S.Store.lists store.now.store) flow.output) }
    {
        let output = flow.output;
        self.out[output] = out_due(store, longest, Port { index: output });
    }

    // A packet has come to a flow. If it is the next one there, `next` is from when on it may start across, and it may be the
    // soonest of its input now. No other port's tick changes.
    pub(crate) fn arrived(&mut self, flow: Flow, next: Option<u128>)
        ensures across { self.new.across ≡ slice_set self.old.across flow.input (sooner_of (slice_index self.old.across flow.input) next) }
        ensures out { self.new.out ≡ self.old.out }
    {
        self.across[flow.input] = sooner(self.across[flow.input], next);
    }

    // A packet of a flow has started across. If it is the oldest one, `next` is from when on it may start out, and it may be the
    // soonest of its output now; had it started before, `again`, it may have been so already, and the tick is worked out anew.
    pub(crate) fn started<S: Store>(
        &mut self,
        flow: Flow,
        next: Option<u128>,
        again: bool,
        store: &Numbered<S>,
        longest: u32,
    )
        ensures across { self.new.across ≡ self.old.across }
        ensures out { self.new.out ≡ slice_set self.old.out flow.output (if again then out_due longest (S.Store.lists store.now.store) flow.output else sooner_of (slice_index self.old.out flow.output) next) }
    {
        if again {
            self.renew_output(flow, store, longest);
        } else {
            self.out[flow.output] = sooner(self.out[flow.output], next);
        }
    }

    // The oldest packet of a flow has left: works out anew the tick of its output. The next one to start across is as it was, if
    // the packet had crossed; else the tick of its input is worked out anew too.
    pub(crate) fn left<S: Store>(
        &mut self,
        flow: Flow,
        crossed: bool,
        store: &Numbered<S>,
        ledgers: &[Ledger; 256],
        longest: u32,
    )
        ensures across { self.new.across ≡ (if crossed then self.old.across else slice_set self.old.across flow.input (across_due (S.Store.lists store.now.store) (ledger_in ledgers.now) flow.input)) }
        ensures out { self.new.out ≡ slice_set self.old.out flow.output (out_due longest (S.Store.lists store.now.store) flow.output) }
    {
        self.renew_output(flow, store, longest);
        if !crossed {
            self.renew_input(flow, store, ledgers);
        }
    }
}
