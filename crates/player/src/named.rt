//! Stores and tie rules of which a run file names one: their signs, and what a rule keeps, are functions of the run.
ghost use Rattle.std.specs.Prelude.{◌≡◌, ℕ, ◌<◌};
ghost use Rattle.law.specs.Step.{Plan, Switch};
ghost use Rattle.law.specs.Promises.{Bookable};
ghost use Rattle.replay.specs.Kinds.{Sign, SignFits, KeepsNext, rings_sign, pool_sign, unchanged};
ghost use Rattle.replay.proofs.Signs.{signs_fit};
ghost use Rattle.tie.specs.Pointers.{advanced};
ghost use Rattle.player.specs.Held.{Holds};
ghost use Rattle.player.specs.Signs.{rings_signs, pool_signs};

use pool::Pool;
use rings::Rings;
use store::Store;
use tie::{Longest, Lowest, TieRule, Turn};

/// A store whose signs follow from what is inside the switch.
pub trait NamedStore: Store {
    // whether the sign of a flow is up
    ghost sign: { Sign };

    // the most packets of one flow that are inside while it is obeyed
    ghost flow_most: { ℕ };

    // the store shows that sign while its lists hold the packets inside
    ghost signs: { (store : Self) (plan : Plan) (s : Switch) → Holds (Self.lists store) plan s → (i j : ℕ) → i < plan.ports → j < plan.ports → Self.full store i j ≡ sign plan s i j };

    // it fits a store of the size that this one states
    ghost fits: { (store : Self) (plan : Plan) → Bookable plan → SignFits plan (Self.size store) flow_most sign };
}

impl NamedStore for Rings {
    ghost sign = { rings_sign };

    ghost flow_most = { 2 };

    ghost signs = { λ store. rings_signs (⟦<Rings as Store>⟧.lists store) };

    ghost fits = { λ store plan bookable. (signs_fit plan bookable).0 };
}

impl NamedStore for Pool {
    ghost sign = { pool_sign };

    ghost flow_most = { 512 };

    ghost signs = { λ store. pool_signs (⟦<Pool as Store>⟧.lists store) };

    ghost fits = { λ store plan bookable. (signs_fit plan bookable).1 };
}

/// A tie rule of which a winner leaves no choice what it keeps next.
pub trait NamedRule: TieRule {
    // what it keeps once it is told a winner: the same, if an impl says nothing else
    ghost next: { Self → ℕ → ℕ → Self } = { unchanged };

    ghost keeps_next: { KeepsNext Self.told next };
}

impl NamedRule for Lowest {
    ghost keeps_next = { λ kept code winner after same. same };
}

impl NamedRule for Turn {
    ghost next = { advanced };

    ghost keeps_next = { λ kept code winner after same. same };
}

impl NamedRule for Longest {
    ghost keeps_next = { λ kept code winner after same. same };
}
