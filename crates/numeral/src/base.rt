// The bases that a number may be written in, and their digits.
ghost use Rattle.std.specs.Prelude.{◌≡◌};
ghost use Rattle.numeral.specs.Numerals.{radix_of, digit_in};

#[derive(Clone, Copy)]
pub(crate) enum Base {
    Decimal,
    Hexadecimal,
}

impl Base {
    pub(crate) fn radix(self) -> u32
        ensures { result ≡ radix_of self }
    {
        match self {
            Base::Decimal => 10,
            Base::Hexadecimal => 16,
        }
    }

    // What a byte is worth as a digit of the base, of either case.
    pub(crate) fn digit(self, byte: u8) -> Option<u64>
        ensures { result ≡ digit_in (radix_of self) byte }
    {
        char::from(byte).to_digit(self.radix()).map(u64::from)
    }
}
