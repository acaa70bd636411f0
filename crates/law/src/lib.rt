//! The law of the schedule: what a switch does tick by tick, and what it promises to each flow. The contract of each function
//! is a theorem. There is nothing to compute: a function answers nothing, or a number that its theorem speaks of.
#![tactic(auto)]

ghost use Rattle.std.specs.Prelude.{◌≡◌, ℕ, ◌<◌, ◌≤◌, true, false};
ghost use Rattle.law.specs.Examples.{ARun, BurstRuns, ExamplesHold};
ghost use Rattle.law.specs.Plans.{plan_of};
ghost use Rattle.law.specs.Port.{PortStaysSound};
ghost use Rattle.law.specs.Promises.{Bookable, RunsKeepPromises};
ghost use Rattle.law.specs.Rules.{AnswersTied, AskingMakesSteps, RulesMakeSteps};
ghost use Rattle.law.specs.Shares.{FlowKeepsItsShare};
ghost use Rattle.plan.specs.Weights.{weight_of};
ghost use Rattle.grid.specs.Flows.{in_grid};
ghost use Rattle.store.specs.Stored.{stored};
ghost use Rattle.tie.specs.PicksTied.{PicksTied};

use plan::Plan;
use store::{MOST_STORED, Store};
use tie::TieRule;

/// A port is on time at every moment of every run.
pub fn port_stands()
    ensures { PortStaysSound }
{}

/// A flow whose packets are on time keeps its share.
pub fn share_stands()
    ensures { FlowKeepsItsShare }
{}

/// Every moment of every run keeps the promises to each flow.
pub fn promises_stand()
    ensures { RunsKeepPromises }
{}

/// Whatever a tie rule keeps, its answers make a step.
pub fn rules_stand()
    ensures { RulesMakeSteps }
{}

/// The worked examples hold.
pub fn examples_stand()
    ensures { ExamplesHold }
{}

/// There are runs with departures and refusals: a short one, and the burst of the worked examples.
pub fn a_run_stands()
    ensures short { ARun }
    ensures burst { BurstRuns }
{}

/// Every plan of the kit is one that the promises are made for, with its own ports, longest packet, parts and weights.
/// Answers the number of ports.
pub fn plan_stands(plan: &Plan) -> usize
    ensures ports { result ≡ (plan_of plan.now).ports }
    ensures size_ports { (plan_of plan.now).ports ≡ plan.now.size.ports }
    ensures longest { (plan_of plan.now).longest ≡ plan.now.size.longest }
    ensures parts { (plan_of plan.now).parts ≡ plan.now.size.parts }
    ensures weights { (plan_of plan.now).weight ≡ weight_of plan.now }
    ensures bookable { Bookable (plan_of plan.now) }
{
    plan.size.ports
}

/// Whatever a tie rule keeps, its answers are those that a step may take, also as it is told the winners of the step.
pub fn rule_stands<R: TieRule>(rule: &R)
    ensures picks_tied { PicksTied (R.TieRule.answer rule.now) }
    ensures answers_tied { AnswersTied (R.TieRule.answer rule.now) }
    ensures steps { AskingMakesSteps R.TieRule.answer R.TieRule.told rule.now }
{}

/// A store shows a full sign only where a run allows it, and takes a packet only where a run does. Answers its
/// stated size.
pub fn store_stands<S: Store>(store: &S) -> usize
    ensures size { result ≡ S.Store.size store.now }
    ensures full { (i j : ℕ) → in_grid i j ≡ true → S.Store.full store.now i j ≡ true → S.Store.size store.now ≤ stored (S.Store.lists store.now) }
    ensures taken { (i j : ℕ) → S.Store.full store.now i j ≡ false → stored (S.Store.lists store.now) < MOST_STORED }
{
    store.stated_size()
}
