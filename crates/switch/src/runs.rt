//! A whole run: a draft is sealed, and any list of calls is made.
ghost use Rattle.std.specs.Prelude.{◌≡◌, IfErr, IfOk};
ghost use Rattle.state.specs.Performs.{Obeys, Performs};
ghost use Rattle.switch.specs.Calls.{KeepsSize, state_of};

use crate::draft::Draft;
use crate::running::Running;
use departure::Departure;
use plan::StepFault;
use state::{Answer, Call, Listed};
use std::alloc::{AllocFailed, Global};
use store::Store;
use tie::TieRule;

/// The switch after a list of calls, and the answer of each.
pub struct Performed<S: Store, R> {
    pub running: Running<S, R>,
    pub answers: Vec<Answer>,
}

impl<S: Store, R: TieRule> Running<S, R> {
    // One call.
    fn make(&mut self, call: Call) -> Answer
        ensures law { Obeys (S.Store.size self.old.store.store) (state_of S.Store.lists self.old) (state_of S.Store.lists self.new) call result }
        ensures stated_size { KeepsSize S.Store.size self.old self.new }
    {
        // A call is data, as a run is a list of any of them; so it is matched, and is no closure.
        match call {
            Call::Arrive {
                input,
                output,
                bytes,
            } => Answer::Arrive(self.arrive(input, output, bytes)),
            Call::Step { room } => Answer::Step(self.step_on(room)),
            Call::Ask { input, output } => Answer::Ask(self.ask(input, output)),
        }
    }

    // A step with room for so many departures. A list of 16 entries is as good as any longer one.
    fn step_on(&mut self, room: usize) -> Result<Listed, StepFault>
        ensures law { Obeys (S.Store.size self.old.store.store) (state_of S.Store.lists self.old) (state_of S.Store.lists self.new) (Call.Step room) (Answer.Step result) }
        ensures stated_size { KeepsSize S.Store.size self.old self.new }
    {
        let mut departures = [Departure::default(); 16];
        let count = self.step(&mut departures[..room.min(16)])?;
        Ok(Listed { departures, count })
    }
}

/// Seals a draft and makes these calls, one after another. Where memory for the answers is wanting the draft comes back
/// as it was.
pub fn perform<S: Store, R: TieRule>(
    alloc: Global,
    draft: Draft<S, R>,
    calls: &[Call],
) -> Result<Performed<S, R>, AllocFailed<Draft<S, R>>>
    ensures performed { IfOk result (λ done. Performs (S.Store.size draft.store.store) draft.plan (state_of S.Store.lists done.running) calls.now done.answers.items) }
    ensures given_back { IfErr result (λ failed. failed.value ≡ draft) }
{
    // No `?`: the error gives the draft back.
    let Ok(mut answers) = Vec::with_capacity(alloc, calls.len()) else {
        return Err(AllocFailed { value: draft });
    };
    let mut running = draft.seal();
    for call in calls {
        let answer = running.make(*call);
        let _ = answers.push(answer);
    }
    Ok(Performed { running, answers })
}
