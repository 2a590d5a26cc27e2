//! Why a call on groups is refused.

use std::alloc::AllocError;
use std::fmt::{self, Display, Formatter, Write};

/// Why a call was refused (our own). Causes are tried in this order, and nothing has changed then.
#[derive(Clone, Copy, Debug, PartialEq, Eq)]
pub enum GroupFault {
    /// G1: no group was opened under this number.
    Unknown,
    /// G2: the group is done, or, for a call that needs it open, a `close` came before.
    Closed,
    /// G3: the child to add is a child of the group already, or the task that ended is no child of the group that
    /// has not ended.
    Child,
    /// G4: a growth was refused.
    Memory,
}

impl Display for GroupFault {
    fn fmt<W: Write>(&self, f: &mut Formatter<W>) -> fmt::Result {
        match self {
            GroupFault::Unknown => f.write_str("G1 unknown group"),
            GroupFault::Closed => f.write_str("G2 group closed"),
            GroupFault::Child => f.write_str("G3 no such child, or a child already"),
            GroupFault::Memory => f.write_str("G4 no memory"),
        }
    }
}

impl From<AllocError> for GroupFault {
    ghost use Rattle.std.specs.Prelude.{◌≡◌};
    ghost use Rattle.swift_groups.specs.declared.fault.GroupFault.TheVariants.{Memory};

    ghost from_gives = { λ _ fault. fault ≡ Memory };

    fn from(_: AllocError) -> Self {
        GroupFault::Memory
    }
}
