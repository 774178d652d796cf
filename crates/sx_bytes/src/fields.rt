//! Fields with a range: an unsigned integer is decoded whole, and then tested.

ghost use Rattle.std.specs.Prelude.{◌≡◌, ◌≤◌, IfOk};
ghost use Rattle.sx_bytes.specs.Cursor.{Decodes};
ghost use Rattle.sx_bytes.specs.Grammar.{between, field_at};

use crate::fault::{Form, FormFault};
use crate::reader::Reader;

impl<'a> Reader<'a> {
    // The fault of a field that began at this place, to which the reader goes back.
    #[inline]
    fn refuse(&mut self, place: usize, fault: Form) -> FormFault
        requires { place ≤ self.old.place }
        ensures fault { result ≡ record { at = place; fault = fault } }
        ensures back { self.new ≡ record self.old { place = place } }
    {
        self.back(place);
        let at = place as u64;
        FormFault { at, fault }
    }

    /// Decodes the next 8 bits. Where the integer is not from `low` to `high`, both included, the
    /// answer is `fault` at the field; `Short` comes where too few bytes are left. A refusal does
    /// not change the reader.
    #[inline]
    pub fn field_u8(&mut self, low: u8, high: u8, fault: Form) -> Result<u8, FormFault>
        ensures exact { Decodes (λ x. x) (field_at 1 (between low high) fault self.old) self.old self.new result }
        ensures in_range { IfOk result (λ x. (low ≤ x) × (x ≤ high)) }
        ensures same { self.new.bytes ≡ self.old.bytes }
        ensures onward { self.old.place ≤ self.new.place }
    {
        let place = self.place();
        let x = self.get_u8()?;
        if x < low || high < x {
            return Err(self.refuse(place, fault));
        }
        Ok(x)
    }

    /// Decodes the next 16 bits as `field_u8` does 8.
    #[inline]
    pub fn field_u16(&mut self, low: u16, high: u16, fault: Form) -> Result<u16, FormFault>
        ensures exact { Decodes (λ x. x) (field_at 2 (between low high) fault self.old) self.old self.new result }
        ensures in_range { IfOk result (λ x. (low ≤ x) × (x ≤ high)) }
        ensures same { self.new.bytes ≡ self.old.bytes }
        ensures onward { self.old.place ≤ self.new.place }
    {
        let place = self.place();
        let x = self.get_u16()?;
        if x < low || high < x {
            return Err(self.refuse(place, fault));
        }
        Ok(x)
    }

    /// Decodes the next 32 bits as `field_u8` does 8.
    #[inline]
    pub fn field_u32(&mut self, low: u32, high: u32, fault: Form) -> Result<u32, FormFault>
        ensures exact { Decodes (λ x. x) (field_at 4 (between low high) fault self.old) self.old self.new result }
        ensures in_range { IfOk result (λ x. (low ≤ x) × (x ≤ high)) }
        ensures same { self.new.bytes ≡ self.old.bytes }
        ensures onward { self.old.place ≤ self.new.place }
    {
        let place = self.place();
        let x = self.get_u32()?;
        if x < low || high < x {
            return Err(self.refuse(place, fault));
        }
        Ok(x)
    }

    /// Decodes the next 64 bits as `field_u8` does 8.
    #[inline]
    pub fn field_u64(&mut self, low: u64, high: u64, fault: Form) -> Result<u64, FormFault>
        ensures exact { Decodes (λ x. x) (field_at 8 (between low high) fault self.old) self.old self.new result }
        ensures in_range { IfOk result (λ x. (low ≤ x) × (x ≤ high)) }
        ensures same { self.new.bytes ≡ self.old.bytes }
        ensures onward { self.old.place ≤ self.new.place }
    {
        let place = self.place();
        let x = self.get_u64()?;
        if x < low || high < x {
            return Err(self.refuse(place, fault));
        }
        Ok(x)
    }

    /// Decodes the next 128 bits as `field_u8` does 8.
    #[inline]
    pub fn field_u128(&mut self, low: u128, high: u128, fault: Form) -> Result<u128, FormFault>
        ensures exact { Decodes (λ x. x) (field_at 16 (between low high) fault self.old) self.old self.new result }
        ensures in_range { IfOk result (λ x. (low ≤ x) × (x ≤ high)) }
        ensures same { self.new.bytes ≡ self.old.bytes }
        ensures onward { self.old.place ≤ self.new.place }
    {
        let place = self.place();
        let x = self.get_u128()?;
        if x < low || high < x {
            return Err(self.refuse(place, fault));
        }
        Ok(x)
    }
}
