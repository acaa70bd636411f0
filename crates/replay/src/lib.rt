//! The run that a list of arrivals makes of a switch, as a function of them: the base of the listing of a run file. There is
//! nothing to compute: each contract is a theorem.
#![tactic(auto)]

ghost use Rattle.replay.specs.Examples.{ThirdIsTurnedAway, UnevenRun};
ghost use Rattle.replay.specs.Kinds.{Sign};
ghost use Rattle.replay.specs.Named.{longest_kind, lowest_kind, turn_kind};
ghost use Rattle.replay.specs.Follows.{ReplaysEnd, ReplaysFollowLaw};
ghost use Rattle.replay.specs.Laws.{AskingIsReplay, IsRuleOf, SignsFit};

use tie::{Longest, Lowest, TieRule, Turn};

/// At each of its moments a replay is a run of the law, so that the promises hold there. What has left are the oldest packets
/// of each flow, each once, by tick and then by output; each arrival is accepted or turned away.
pub fn replays_stand<K>()
    ensures { ReplaysFollowLaw K }
{}

/// The replay of the arrivals of a run file ends before the clock's last tick, and all that it has accepted has left then.
pub fn ends_stand<K>()
    ensures { ReplaysEnd K }
{}

/// The signs of rings and of a pool fit the sizes that these stores state.
pub fn signs_stand()
    ensures { SignsFit }
{}

/// The named kinds have the kit's rules: lowest and longest keep the same whatever they are told, and turn moves a pointer.
pub fn kinds_stand()
    ensures lowest { (sign : Sign) → IsRuleOf ⟦<Lowest as TieRule>⟧.answer ⟦<Lowest as TieRule>⟧.told (lowest_kind sign) }
    ensures turn { (sign : Sign) → IsRuleOf ⟦<Turn as TieRule>⟧.answer ⟦<Turn as TieRule>⟧.told (turn_kind sign) }
    ensures longest { (sign : Sign) → IsRuleOf ⟦<Longest as TieRule>⟧.answer ⟦<Longest as TieRule>⟧.told (longest_kind sign) }
{}

/// A tie rule whose `told` determines what it keeps next keeps, and starts, what the replay says.
pub fn asking_stands<R: TieRule>()
    ensures { AskingIsReplay R.TieRule.told }
{}

/// The worked examples hold.
pub fn examples_stand()
    ensures third { ThirdIsTurnedAway }
    ensures uneven { UnevenRun }
{}
