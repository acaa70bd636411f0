//! A whole run file to its listing.
ghost use Rattle.std.specs.Prelude.{◌≡◌, ℕ, List, take, is_ok, if◌then◌else◌, vec_capacity};
ghost use Rattle.carry.specs.Booked.{Lists};
ghost use Rattle.carry.specs.Carries.{Carries, CarriesOn, Leaves, ListsBy};
ghost use Rattle.carry.specs.Lists.{Adds};
ghost use Rattle.player.specs.Named.{kind_of};
ghost use Rattle.carry.specs.Traffic.{ListsAs};

use crate::book::book;
use crate::lines::push_refusal;
use crate::play::finish;
use crate::stop::Stop;
use crate::traffic::play_arrivals;
use plan::Plan;
use player::{NamedRule, NamedStore, Player};
use pool::Pool;
use rings::Rings;
use runfile::{Rest, RuleKind, StoreKind};
use std::alloc::AllocError;
use switch::Draft;
use tie::{Longest, Lowest, Turn};

// The run of a file behind its seal, over this draft.
fn play<S: NamedStore + Drop, R: NamedRule + Drop>(
    draft: Draft<S, R>,
    rest: Rest<'_>,
    out: &mut Vec<u8>,
) -> Result<(), Stop>
    ensures { CarriesOn (ListsAs (kind_of S.NamedStore R.NamedRule draft.rule)) draft.plan rest.entry out.old out.new result }
{
    let mut player = Player::new(draft);
    play_arrivals(&mut player, rest, out)?;
    finish(player, out)?;
    Ok(())
}

// The same, over this plan and store and by the rule of this name. Each arm runs over a type of its own.
fn play_by<S: NamedStore + Drop>(
    plan: Plan,
    store: S,
    rule: RuleKind,
    rest: Rest<'_>,
    out: &mut Vec<u8>,
) -> Result<(), Stop>
    ensures { CarriesOn (ListsBy S.NamedStore.sign rule) plan rest.entry out.old out.new result }
{
    match rule {
        RuleKind::Lowest => play(Draft::over(plan, store, Lowest), rest, out),
        RuleKind::Turn => play(Draft::over(plan, store, Turn::new()), rest, out),
        RuleKind::Longest => play(Draft::over(plan, store, Longest), rest, out),
    }
}

// A file, over the store and by the rule that its head names. Each arm runs over a store of a type of its own.
fn play_file(file: &[u8], out: &mut Vec<u8>) -> Result<(), Stop>
    ensures { Leaves (Lists file.now) out.old out.new result }
{
    let (head, plan, rest) = book(file)?;
    match head.store {
        StoreKind::Rings => play_by(plan, Rings::new(), head.rule, rest, out),
        StoreKind::Pool => play_by(plan, Pool::new(), head.rule, rest, out),
    }
}

// Appends the listing of a file, or what there is memory for.
fn list(file: &[u8], out: &mut Vec<u8>) -> Result<(), AllocError>
    ensures { (text : List ℕ) × Lists file.now text × Adds text out.old out.new (is_ok result) }
{
    match play_file(file, out) {
        Err(Stop::Refused(fault)) => push_refusal(out, fault),
        Err(Stop::Memory(error)) => Err(error),
        Ok(()) => Ok(()),
    }
}

// Takes back what was appended past the first bytes of a vector, if there was no memory for the rest.
fn take_back(
    out: &mut Vec<u8>,
    before: usize,
    listed: Result<(), AllocError>,
) -> Result<(), AllocError>
    ensures items { out.new.items ≡ (if is_ok listed then out.old.items else take before out.old.items) }
    ensures answer { result ≡ listed }
{
    if listed.is_err() {
        out.truncate(before);
    }
    listed
}

/// Appends the listing of a run file. Want of memory leaves the vector holding what it held.
pub fn carry(file: &[u8], out: &mut Vec<u8>) -> Result<(), AllocError>
    ensures { Carries file.now out.old.items out.new.items (vec_capacity out.old) result }
{
    let before = out.len();
    let listed = list(file, out);
    take_back(out, before, listed)
}
