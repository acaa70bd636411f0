//! Two ports whose heads all have the same virtual finish, so that the rule decides.
use crate::show::{arrive, ask, steps};
use plan::Size;
use std::io;
use store::Store;
use switch::Draft;
use tie::TieRule;

/// Input 0 has one packet for output 0 and two for output 1; input 1 one packet for each. All heads finish at tick 4.
pub fn run<S: Store + Drop, R: TieRule + Drop>(
    rt: &impl Print,
    store: S,
    rule: R,
) -> io::Result<()> {
    let Ok(size) = Size::new(2, 2, 4) else {
        return Ok(());
    };
    let mut draft = Draft::open(size, store, rule);
    let _ = draft.share(0, 0, 2);
    let _ = draft.share(0, 1, 2);
    let _ = draft.share(1, 0, 2);
    let _ = draft.share(1, 1, 2);
    let mut switch = draft.seal();
    arrive(rt, &mut switch, 0, 0, 2)?;
    arrive(rt, &mut switch, 0, 1, 2)?;
    arrive(rt, &mut switch, 0, 1, 1)?;
    arrive(rt, &mut switch, 1, 0, 2)?;
    arrive(rt, &mut switch, 1, 1, 2)?;
    steps(rt, &mut switch, 5)?;
    ask(rt, &switch, 0, 1)?;
    steps(rt, &mut switch, 7)?;
    ask(rt, &switch, 0, 0)?;
    ask(rt, &switch, 1, 1)
}
