//! Two ports, three packets of uneven length and weight, and no ties.
use crate::show::{arrive, ask, steps};
use plan::Size;
use std::io;
use store::Store;
use switch::Draft;
use tie::TieRule;

/// The run, whose working docs/SWITCH.md shows.
pub fn run<S: Store + Drop, R: TieRule + Drop>(
    rt: &impl Print,
    store: S,
    rule: R,
) -> io::Result<()> {
    let Ok(size) = Size::new(2, 6, 4) else {
        return Ok(());
    };
    let mut draft = Draft::open(size, store, rule);
    let _ = draft.share(0, 0, 2);
    let _ = draft.share(0, 1, 2);
    let _ = draft.share(1, 0, 1);
    let mut switch = draft.seal();
    arrive(rt, &mut switch, 0, 1, 4)?;
    arrive(rt, &mut switch, 0, 0, 6)?;
    ask(rt, &switch, 0, 0)?;
    steps(rt, &mut switch, 1)?;
    arrive(rt, &mut switch, 1, 0, 3)?;
    ask(rt, &switch, 0, 1)?;
    steps(rt, &mut switch, 4)?;
    ask(rt, &switch, 0, 0)?;
    ask(rt, &switch, 0, 1)?;
    ask(rt, &switch, 1, 0)?;
    steps(rt, &mut switch, 3)?;
    ask(rt, &switch, 0, 1)?;
    ask(rt, &switch, 1, 0)?;
    steps(rt, &mut switch, 2)?;
    ask(rt, &switch, 0, 0)?;
    ask(rt, &switch, 0, 1)?;
    steps(rt, &mut switch, 6)?;
    ask(rt, &switch, 0, 0)?;
    ask(rt, &switch, 1, 1)?;
    ask(rt, &switch, 2, 0)
}
