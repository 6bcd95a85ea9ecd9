// The three registers, and three values, one for each.
ghost use Rattle.std.specs.Prelude.{◌≡◌};
ghost use Rattle.steps.specs.Registers.{at, put};

/// One of the three registers.
#[derive(Clone, Copy, Debug, PartialEq, Eq, PartialOrd, Ord)]
pub enum Register {
    T,
    P,
    Q,
}

/// A value for each register.
#[derive(Clone, Copy, Debug, Default, PartialEq, Eq)]
pub struct Registers<V> {
    pub t: V,
    pub p: V,
    pub q: V,
}

impl<V: Copy> Registers<V> {
    /// The value of a register.
    pub fn get(&self, register: Register) -> V
        ensures { result ≡ at self.now register }
    {
        match register {
            Register::T => self.t,
            Register::P => self.p,
            Register::Q => self.q,
        }
    }

    /// Gives a register another value.
    pub fn set(&mut self, register: Register, value: V)
        ensures { self.new ≡ put self.old register value }
    {
        match register {
            Register::T => self.t = value,
            Register::P => self.p = value,
            Register::Q => self.q = value,
        }
    }
}
