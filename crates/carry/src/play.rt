//! The playing of a run, with the lines of what happens. A player and a vector stay two parameters: at its end the one goes,
//! and the other is the caller's.
ghost use Rattle.std.specs.Prelude.{◌-◌, ◌<◌, ◌≤◌};
ghost use Rattle.replay.specs.Replay.{run_out, run_tick, run_to};
ghost use Rattle.carry.specs.Playing.{ToNextEvent, Ends, IsPlaying, PlaysOn};

use crate::lines::{push, push_departures};
use crate::peaks::push_peaks;
use listing::End;
use plan::LAST_TICK;
use player::{NamedRule, NamedStore, Player};
use std::alloc::AllocError;

// One tick, with the `D` lines of what leaves.
fn tick<S: NamedStore, R: NamedRule>(
    player: &mut Player<S, R>,
    out: &mut Vec<u8>,
) -> Result<(), AllocError>
    ensures { PlaysOn S.NamedStore R.NamedRule (λ plan kind. run_tick plan kind) (λ x. x.switch.clock < LAST_TICK) player.old player.new out.old out.new result }
{
    player.tick();
    push_departures(out, player.departures())
}

// The quiet ticks from now on and the one behind them, none beyond the limit.
fn to_next_event<S: NamedStore, R: NamedRule>(
    player: &mut Player<S, R>,
    limit: u64,
    out: &mut Vec<u8>,
) -> Result<(), AllocError>
    ensures { ToNextEvent S.NamedStore R.NamedRule limit player.old player.new out.old out.new result }
{
    player.pass_quiet(limit);
    if player.clock() >= limit {
        return Ok(());
    }
    tick(player, out)
}

/// The ticks up to this one.
pub fn run_to<S: NamedStore, R: NamedRule>(
    player: &mut Player<S, R>,
    until: u64,
    out: &mut Vec<u8>,
) -> Result<(), AllocError>
    ensures { PlaysOn S.NamedStore R.NamedRule (λ plan kind. run_to plan kind until) (λ _. until ≤ LAST_TICK) player.old player.new out.old out.new result }
{
    // at most as many turns as ticks, nothing is indexed: a chain would have to carry the player, the vector and the error
    // along
    for _ in 0..until.saturating_sub(player.clock()) {
        if player.clock() >= until {
            return Ok(());
        }
        to_next_event(player, until, out)?;
    }
    Ok(())
}

/// Ticks until nothing is inside, at most as many as the clock has.
pub fn run_out<S: NamedStore, R: NamedRule>(
    player: &mut Player<S, R>,
    out: &mut Vec<u8>,
) -> Result<(), AllocError>
    ensures { PlaysOn S.NamedStore R.NamedRule (λ plan kind x. run_out plan kind (LAST_TICK - x.switch.clock) x) (λ _. Unit {0}) player.old player.new out.old out.new result }
{
    // as in `run_to`; and a `while` would need a measure where the range is one
    for _ in 0..LAST_TICK.saturating_sub(player.clock()) {
        if player.inside() == 0 || player.clock() >= LAST_TICK {
            return Ok(());
        }
        to_next_event(player, LAST_TICK, out)?;
    }
    Ok(())
}

// The end of a run: ticks until nothing is inside, then the `X` lines and the `E` line.
pub(crate) fn finish<S: NamedStore + Drop, R: NamedRule + Drop>(
    mut player: Player<S, R>,
    out: &mut Vec<u8>,
) -> Result<(), AllocError>
    requires { IsPlaying S.NamedStore R.NamedRule player out.old }
    ensures { Ends S.NamedStore R.NamedRule player out.old out.new result }
{
    run_out(&mut player, out)?;
    let end = End {
        tick: player.clock(),
        bytes: player.bytes(),
    };
    push_peaks(out, &player.settle())?;
    push(out, &end)
}
