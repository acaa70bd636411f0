//! A port of one side of the switch.
ghost use Rattle.std.specs.Prelude.{◌≡◌, ℕ, ◌<◌, ◌≤◌, map, fold};
ghost use Rattle.std.specs.List.{range_with_len};

use grid::Flow;
use std::array;

// A port of one side of the switch.
#[derive(Clone, Copy)]
pub(crate) struct Port {
    pub(crate) index: usize,
    ghost inside: { index < 16 },
}

impl Port {
    // The flow from this input to an output.
    pub(crate) fn to(self, output: Port) -> Flow
        ensures { (result.input ≡ self.index) × (result.output ≡ output.index) }
    {
        Flow {
            input: self.index,
            output: output.index,
        }
    }
}

// What a closure gives at each port, in order.
pub(crate) fn by_port<T, F: Fn(Port) -> T>(at: F) -> [T; 16]
    requires { F.IsAlwaysCallable at }
    ensures { (h : ℕ → T) → ((port : _) (x : T) → F.post at port x → x ≡ h port.index) → result ≡ map h (range_with_len 0 16) }
{
    array::from_fn(
        |index|
            requires below { index < 16 }
            requires callable { F.IsAlwaysCallable at }
        { at(Port { index }) },
    )
}

// What a closure makes of a value at each of the first ports, in order.
pub(crate) fn fold_ports<T, F: Fn(T, Port) -> T>(ports: usize, first: T, at: F) -> T
    requires few { ports ≤ 16 }
    requires callable { F.IsAlwaysCallable at }
    ensures { (h : T → ℕ → T) → ((x : T) (port : _) (y : T) → F.post at x port y → y ≡ h x port.index) → result ≡ fold h first (range_with_len 0 ports) }
{
    (0..ports).fold(
        first,
        |x, index|
            requires below { index < 16 }
            requires callable { F.IsAlwaysCallable at }
        { at(x, Port { index }) },
    )
}
