//! What a line is doing at a tick.
ghost use Rattle.std.specs.Prelude.{◌≡◌, ℕ};
ghost use Rattle.state.specs.Lines.{until_of, busy_at, carries};

use state::Busy;

// The tick at which a line falls free.
pub(crate) fn until_of<T: Copy>(line: Option<Busy<T>>) -> u64
    ensures { result ≡ until_of line }
{
    line.map_or(0, |busy| busy.until)
}

// Whether a line is busy at a tick.
pub(crate) fn is_busy<T: Copy>(line: Option<Busy<T>>, tick: u64) -> bool
    ensures { result ≡ busy_at tick line }
{
    line.is_some_and(|busy| tick < busy.until)
}

// Whether a line carries something at a tick whose other port, as a closure reads it off the load, is this one.
pub(crate) fn carries<T: Copy, F: FnOnce(T) -> usize>(
    line: Option<Busy<T>>,
    port: F,
    other: usize,
    tick: u64,
) -> bool
    requires { F.IsAlwaysCallable port }
    ensures { (read : T → ℕ) → ((load : T) (k : ℕ) → F.post port load k → k ≡ read load) → result ≡ carries read tick other line }
{
    line.is_some_and(|busy| port(busy.load) == other && tick < busy.until)
}
