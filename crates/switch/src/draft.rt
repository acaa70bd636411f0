//! A draft, in which shares are booked, and its seal.
ghost use Rattle.switch.specs.Calls.{OpenedAs, OpenedOver, SealedAs, Shares};

use crate::due::Due;
use crate::running::Running;
use plan::{Plan, ShareFault, Size};
use state::Ledger;
use store::{Numbered, Store};

/// A switch whose shares are still being booked.
#[derive(Drop)]
pub struct Draft<S, R> {
    pub(crate) plan: Plan,
    pub(crate) store: Numbered<S>,
    pub(crate) rule: R,
}

impl<S, R> Draft<S, R> {
    /// Books a weight for a flow in place of the old one. A refusal leaves the draft as it was.
    pub fn share(&mut self, input: usize, output: usize, weight: u32) -> Result<(), ShareFault>
        ensures { Shares self.old self.new input output weight result }
    {
        self.plan.share(input, output, weight)
    }
}

impl<S: Store, R> Draft<S, R> {
    /// A draft in which every flow is closed. It clears the store.
    pub fn open(size: Size, store: S, rule: R) -> Draft<S, R>
        ensures { OpenedAs S.Store.lists S.Store.size size store rule result }
    {
        Draft::over(Plan::new(size), store, rule)
    }

    /// A draft over a plan that is booked already. It clears the store.
    pub fn over(plan: Plan, store: S, rule: R) -> Draft<S, R>
        ensures { OpenedOver S.Store.lists S.Store.size plan store rule result }
    {
        Draft {
            plan,
            store: Numbered::new(store),
            rule,
        }
    }

    /// Starts the clock at 0, with nothing inside.
    pub fn seal(self) -> Running<S, R>
        ensures { SealedAs S.Store.lists S.Store.size self result }
    {
        let Draft {
            plan,
            mut store,
            rule,
        } = self;
        store.clear();
        Running {
            plan,
            clock: 0,
            crossing: [None; 16],
            sending: [None; 16],
            ledgers: [Ledger::default(); 256],
            store,
            rule,
            due: Due::new(),
        }
    }
}
