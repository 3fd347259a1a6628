// How a line is read: from the front, one thing after another.
ghost use Rattle.std.specs.Prelude.{◌≡◌, ℕ, ◌↔◌, List, ◌∷◌, ◌++◌, IsSome, OnSome, IfNone};

// What is left of a line. Where what is asked for does not stand at its front, the answer is None.
#[derive(Clone, Copy)]
pub struct Cursor<'a> {
    pub rest: &'a [u8],
}

impl<'a> Cursor<'a> {
    // Passes a byte.
    pub fn byte(&mut self, b: u8) -> Option<()>
        ensures variant { IsSome result ↔ ((rest : List ℕ) × (self.old.rest.now ≡ b ∷ rest)) }
        ensures passed { OnSome result (self.old.rest.now ≡ b ∷ self.new.rest.now) }
        ensures stays { IfNone result (self.new ≡ self.old) }
    {
        self.rest = self.rest.strip_prefix(&[b])?;
        Some(())
    }

    // What stands before the first byte that ends it, or all that is left.
    pub fn until<F: FnMut(&u8) -> bool>(&mut self, is_end: F) -> &'a [u8]
        requires { (state : F) (x : _) → F.pre state x }
        ensures { self.old.rest.now ≡ result.now ++ self.new.rest.now }
    {
        let text = self.rest;
        let end = text.iter().position(is_end).unwrap_or(text.len());
        let (front, rest) = text.split_at(end);
        self.rest = rest;
        front
    }

    // Decimal digits, as a number that 64 bits hold.
    pub fn digits(&mut self) -> Option<u64> {
        let digits = self.until(|b| !b.is_ascii_digit());
        if digits.is_empty() {
            return None;
        }
        let mut number = 0u64;
        for b in digits {
            let digit = u64::from(b.wrapping_sub(b'0'));
            number = number.checked_mul(10)?.checked_add(digit)?;
        }
        Some(number)
    }

    // Decimal digits, with a minus sign before them or without.
    pub fn number(&mut self) -> Option<i128> {
        let is_negative = self.byte(b'-').is_some();
        let size = i128::from(self.digits()?);
        Some(if is_negative { -size } else { size })
    }

    // A number of a question after a space: the 64 bits of it in two's complement.
    pub fn bits(&mut self) -> Option<u64> {
        self.byte(b' ')?;
        let number = self.number()?;
        if number < 0 {
            Some(i64::try_from(number).ok()?.cast_unsigned())
        } else {
            u64::try_from(number).ok()
        }
    }
}
