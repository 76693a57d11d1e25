//! Borrowed bytes as a view, which several workers can have. Offsets are bytes from 0.

ghost use Rattle.std.specs.Prelude.{◌≡◌};

use dsy_base::fault::Failed;
use dsy_base::view::View;

/// A view of borrowed bytes. Reads never fail.
#[derive(Clone, Copy)]
pub struct SharedBytes<'a> {
    bytes: &'a [u8],
}

impl<'a> SharedBytes<'a> {
    pub fn new(bytes: &'a [u8]) -> SharedBytes<'a>
        ensures bytes { result.bytes.now ≡ bytes.now }
    {
        SharedBytes { bytes }
    }
}

impl<'a> View for SharedBytes<'a> {
    ghost use Rattle.std.specs.Prelude.{Some, [], length, true, refl};

    ghost held = { λ v. record { bytes = Some v.bytes.now; size = length v.bytes.now; name = [] } };

    ghost faults = { λ _. 0 };

    ghost tells = { true };

    ghost never_fails = { true };

    fn size(&self) -> u64 {
        self.bytes.len() as u64
    }

    fn read_at(&mut self, at: u64, out: &mut [u8]) -> Result<(), Failed> {
        let start = at as usize;
        out.copy_from_slice(&self.bytes[start..start + out.len()]);
        Ok(())
    }

    ghost told = { λ _. refl };

    ghost sized = { λ _. refl };

    ghost sure = { λ _ _. refl };
}
