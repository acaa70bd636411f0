//! The virtual times of a packet that comes in.
ghost use Rattle.std.specs.Prelude.{◌≡◌, if◌then◌else◌, Some, None};
ghost use Rattle.state.specs.Stamping.{incoming, stampable};

use store::Incoming;
use timing::{Stamp, virtual_finish, virtual_start};

// The packet as it comes in, with its virtual times; none where they fit no stamp.
pub(crate) fn incoming_of(
    last: Option<Stamp>,
    weight: u32,
    arrival: u64,
    bytes: u32,
    parts: u32,
) -> Option<Incoming>
    ensures { result ≡ (if stampable last weight arrival bytes parts then Some (incoming last weight arrival bytes parts) else None) }
{
    let start = virtual_start(arrival, last, weight)?;
    let finish = virtual_finish(start, bytes, parts)?;
    Some(Incoming {
        arrival,
        bytes,
        start,
        finish,
    })
}
