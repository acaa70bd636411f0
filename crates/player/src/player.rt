//! A switch that plays a run.
ghost use Rattle.std.specs.Prelude.{◌≡◌, ◌≤◌, length};
ghost use Rattle.replay.specs.Events.{bytes_in};

use crate::named::{NamedRule, NamedStore};
use departure::Departure;
use plan::ArriveFault;
use store::Store;
use switch::{Draft, Running, Settled};

/// A running switch with what left in its last tick, and its packets inside and its departed bytes, counted.
#[derive(Drop)]
pub struct Player<S: Store, R> {
    running: Running<S, R>,
    // An array with its count, since a step fills the array where it stands: a vector would be filled from a second array.
    list: [Departure; 16],
    count: usize,
    inside: usize,
    bytes: u64,
    ghost few: { count ≤ 16 },
}

// The bytes of the departures of a tick.
fn bytes_in(departures: &[Departure]) -> u64
    requires { length departures.now ≤ 16 }
    ensures { result ≡ bytes_in departures.now }
{
    departures.iter().map(|d| u64::from(d.bytes)).sum()
}

impl<S: NamedStore, R: NamedRule> Player<S, R> {
    ghost use Rattle.player.specs.Named.{Begins, OffersTo, PassesOn, TicksOn};

    /// Seals a draft: the clock stands at 0, and nothing is inside.
    pub fn new(draft: Draft<S, R>) -> Player<S, R>
        ensures { Begins S.NamedStore R.NamedRule draft result }
    {
        Player {
            running: draft.seal(),
            list: [Departure::default(); 16],
            count: 0,
            inside: 0,
            bytes: 0,
        }
    }

    /// One tick. At the clock's last tick the switch stays as it is, and nothing leaves.
    pub fn tick(&mut self)
        ensures { TicksOn S.NamedStore R.NamedRule self.old self.new }
    {
        let ports = self.running.plan().size.ports;
        // no `?`: a refused step is no error here, and lists nothing
        let Ok(count) = self.running.step(&mut self.list[0..ports]) else {
            self.count = 0;
            return;
        };
        self.count = count;
        self.inside = self.inside.saturating_sub(count);
        self.bytes = self.bytes.wrapping_add(bytes_in(&self.list[..count]));
    }

    /// Passes in one go the quiet ticks from now on, none beyond the limit: those in which nothing starts and nothing
    /// leaves. Answers how many they are; if there is one, `departures` is empty after it.
    pub fn pass_quiet(&mut self, limit: u64) -> u64
        ensures { PassesOn S.NamedStore R.NamedRule self.old self.new limit result }
    {
        let ticks = self.running.pass_quiet(limit);
        if ticks > 0 {
            self.count = 0;
        }
        ticks
    }

    /// A packet comes to a flow at the present tick.
    pub fn arrive(&mut self, input: usize, output: usize, bytes: u32) -> Result<(), ArriveFault>
        ensures { OffersTo S.NamedStore R.NamedRule self.old self.new input output bytes result }
    {
        self.running.arrive(input, output, bytes)?;
        self.inside = self.inside.wrapping_add(1);
        Ok(())
    }
}

impl<S: Store, R> Player<S, R> {
    ghost use Rattle.player.specs.Plays.{left_now};

    /// What left in the last tick, by output.
    pub fn departures(&self) -> &[Departure]
        ensures { result.now ≡ left_now self.now }
    {
        &self.list[..self.count]
    }

    /// The present tick.
    pub fn clock(&self) -> u64
        ensures { result ≡ self.now.running.clock }
    {
        self.running.clock()
    }

    /// How many packets are inside.
    pub fn inside(&self) -> usize
        ensures { result ≡ self.now.inside }
    {
        self.inside
    }

    /// The bytes departed, modulo 2^64.
    pub fn bytes(&self) -> u64
        ensures { result ≡ self.now.bytes }
    {
        self.bytes
    }

    /// Ends the run.
    pub fn settle(self) -> Settled<S, R>
        ensures { result.running ≡ self.running }
    {
        self.running.settle()
    }
}
