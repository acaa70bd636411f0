//! A running switch.
ghost use Rattle.std.specs.Prelude.{◌≡◌};
ghost use Rattle.state.specs.Due.{TellsAcross, TellsOut};
ghost use Rattle.state.specs.State.{ledger_in};

use crate::due::Due;
use departure::Departure;
use plan::Plan;
use state::{Busy, Ledger};
use store::{Numbered, Store};

/// A sealed switch: its plan and clock, the line of each input and output, the ledger of each flow, the store with its
/// numbering, the tie rule, and from when on each port may start something. Its tables are arrays of fixed size: a switch does
/// not allocate.
// What it shows is `state_of` of specs/, and no `impl Model`: that one could not cite the lists of S.
#[derive(Drop)]
pub struct Running<S: Store, R> {
    pub(crate) plan: Plan,
    pub(crate) clock: u64,
    pub(crate) crossing: [Option<Busy<usize>>; 16],
    pub(crate) sending: [Option<Busy<Departure>>; 16],
    pub(crate) ledgers: [Ledger; 256],
    pub(crate) store: Numbered<S>,
    pub(crate) rule: R,
    pub(crate) due: Due,
    ghost inputs_due: { TellsAcross (S.Store.lists store.store) (ledger_in ledgers) due.across },
    ghost outputs_due: { TellsOut plan.size.longest (S.Store.lists store.store) due.out },
}

impl<S: Store, R> Running<S, R> {
    /// The plan that was sealed.
    pub fn plan(&self) -> &Plan
        ensures { result.now ≡ self.now.plan }
    {
        &self.plan
    }

    /// The present tick.
    pub fn clock(&self) -> u64
        ensures { result ≡ self.now.clock }
    {
        self.clock
    }
}
