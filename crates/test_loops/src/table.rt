//! What drives the bits of one net.

/// What drives a bit: bits of the same net, by their numbers.
#[derive(Clone, Copy, Debug)]
pub enum Source {
    Input,
    Undriven,
    /// The conjunction of two bits.
    And(u32, u32),
    /// A bit.
    Copy(u32),
    /// A register, whose next value is a bit.
    Keep(u32),
}

impl Source {
    /// The first bit that is read, 0 where none is.
    pub fn first(self) -> u32 {
        match self {
            Source::Input => 0,
            Source::Undriven => 0,
            Source::And(a, _) => a,
            Source::Copy(a) => a,
            Source::Keep(a) => a,
        }
    }

    /// The second bit that is read, 0 where none is.
    pub fn second(self) -> u32 {
        match self {
            Source::Input => 0,
            Source::Undriven => 0,
            Source::And(_, b) => b,
            Source::Copy(_) => 0,
            Source::Keep(_) => 0,
        }
    }
}
