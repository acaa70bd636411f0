//! Serials over a store.
ghost use Rattle.std.specs.Prelude.{◌≡◌, false, [], Some};
ghost use Rattle.store.specs.Counts.{counts};

use store::{Incoming, Numbered, Store};
use timing::Stamp;

pub(crate) fn incoming() -> Option<Incoming> {
    let start = Stamp::at(0, 1)?;
    Some(Incoming {
        arrival: 0,
        bytes: 64,
        start,
        finish: start,
    })
}

// Puts a packet into flow (1, 2), looks at the oldest and removes it. In an empty flow whose sign is down, the serial
// is the count of packets taken before.
fn pass<S: Store>(numbered: &mut Numbered<S>, incoming: Incoming) -> Option<u64>
    ensures { S.Store.lists numbered.old.store 1 2 ≡ [] → S.Store.full numbered.old.store 1 2 ≡ false → result ≡ Some (counts numbered.old 1 2) }
{
    if !numbered.put(1, 2, incoming) {
        return None;
    }
    let packet = numbered.look(1, 2, 0)?;
    if !numbered.remove(1, 2) {
        return None;
    }
    Some(packet.serial)
}

// Whether the serials of a flow count up from 0, and again after a clear.
pub(crate) fn counts_up<S: Store>(store: S, incoming: Incoming) -> bool
where
    S: Drop,
{
    let mut numbered = Numbered::new(store);
    (0..2).all(|_| {
        numbered.clear();
        (0..600u64).all(|n| pass(&mut numbered, incoming) == Some(n))
    })
}
