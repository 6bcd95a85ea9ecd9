// A set of registers as a number: the sum of the bits of its registers.
ghost use Rattle.std.specs.Prelude.{◌<◌};

/// A set of registers, as the full ones of the unit.
#[derive(Clone, Copy, Debug, PartialEq, Eq)]
pub struct RegisterSet {
    pub(crate) bits: u8,
    ghost below: { bits < 8 },
}
