//! What the bodies of records say. Numbers are unsigned, higher byte first.
ghost use Rattle.std.specs.Prelude.{◌≡◌};
ghost use Rattle.runfile.specs.Bodies.{Finds, store_of, rule_of, head_of, share_of, arrival_of};

use crate::fault::ReadFault;

/// Where packets are kept.
#[derive(Clone, Copy, PartialEq, Eq, Debug)]
pub enum StoreKind {
    Rings,
    Pool,
}

/// How a choice among equal virtual finishes is made.
#[derive(Clone, Copy, PartialEq, Eq, Debug)]
pub enum RuleKind {
    Lowest,
    Turn,
    Longest,
}

/// The size of the switch, its store and its rule.
#[derive(Clone, Copy, PartialEq, Eq, Debug)]
pub struct Head {
    pub ports: u8,
    pub longest: u16,
    pub parts: u16,
    pub store: StoreKind,
    pub rule: RuleKind,
}

/// A weight for a flow.
#[derive(Clone, Copy, PartialEq, Eq, Debug)]
pub struct Share {
    pub input: u8,
    pub output: u8,
    pub weight: u16,
}

/// A packet that arrives at a tick.
#[derive(Clone, Copy, PartialEq, Eq, Debug)]
pub struct Arrival {
    pub tick: u32,
    pub input: u8,
    pub output: u8,
    pub length: u16,
}

/// The store of this value.
impl TryFrom<u8> for StoreKind {
    type Error = ReadFault;

    ghost try_from_gives = { λ k. Finds (store_of k) };

    fn try_from(value: u8) -> Result<Self, ReadFault> {
        match value {
            1 => Ok(StoreKind::Rings),
            2 => Ok(StoreKind::Pool),
            _ => Err(ReadFault::UnknownChoice),
        }
    }
}

/// The rule of this value.
impl TryFrom<u8> for RuleKind {
    type Error = ReadFault;

    ghost try_from_gives = { λ k. Finds (rule_of k) };

    fn try_from(value: u8) -> Result<Self, ReadFault> {
        match value {
            1 => Ok(RuleKind::Lowest),
            2 => Ok(RuleKind::Turn),
            3 => Ok(RuleKind::Longest),
            _ => Err(ReadFault::UnknownChoice),
        }
    }
}

/// The head in a body of seven bytes, or a refusal if its store or its rule has no such value.
impl TryFrom<[u8; 7]> for Head {
    type Error = ReadFault;

    ghost try_from_gives = { λ body. Finds (head_of body) };

    fn try_from(body: [u8; 7]) -> Result<Self, ReadFault> {
        let [ports, l1, l0, w1, w0, store, rule] = body;
        Ok(Head {
            ports,
            longest: u16::from_be_bytes([l1, l0]),
            parts: u16::from_be_bytes([w1, w0]),
            store: StoreKind::try_from(store)?,
            rule: RuleKind::try_from(rule)?,
        })
    }
}

/// The share in a body of four bytes.
impl From<[u8; 4]> for Share {
    ghost from_gives = { λ body s. s ≡ share_of body };

    fn from(body: [u8; 4]) -> Share {
        let [input, output, w1, w0] = body;
        Share {
            input,
            output,
            weight: u16::from_be_bytes([w1, w0]),
        }
    }
}

/// The arrival in a body of seven bytes.
impl From<[u8; 7]> for Arrival {
    ghost from_gives = { λ body a. a ≡ arrival_of body };

    fn from(body: [u8; 7]) -> Arrival {
        let [t2, t1, t0, input, output, l1, l0] = body;
        Arrival {
            tick: u32::from_be_bytes([0, t2, t1, t0]),
            input,
            output,
            length: u16::from_be_bytes([l1, l0]),
        }
    }
}
