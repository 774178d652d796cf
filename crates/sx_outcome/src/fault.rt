//! The fault of what begins at a place.

ghost use Rattle.std.specs.Prelude.{◌≡◌};
ghost use Rattle.sx_bytes.specs.declared.fault.ReadError.TheVariants as read_error;

use sx_bytes::{Form, FormFault, ReadError};

// The fault of what begins at this place.
pub fn fault_at(at: usize, fault: Form) -> ReadError
    ensures { result ≡ read_error.Form (record { at = at; fault = fault }) }
{
    ReadError::Form(FormFault {
        at: at as u64,
        fault,
    })
}
