//! Why a command stops before it has its answer.

ghost use Rattle.std.specs.Prelude.{◌≡◌};
ghost use Rattle.sx_input.specs.declared.stop.Stop.TheVariants as stop;

use sx_block::Invalid;
use sx_bytes::{FormFault, NoMemory};

/// Why a command stops.
#[derive(Clone, Copy, Debug, PartialEq, Eq)]
pub enum Stop {
    NoMemory,
    ReadFault,
    Malformed(FormFault),
    Refused { block: u32, why: Invalid },
}

impl From<NoMemory> for Stop {
    ghost from_gives = { λ _ e. e ≡ stop.NoMemory };

    fn from(_error: NoMemory) -> Stop {
        Stop::NoMemory
    }
}
