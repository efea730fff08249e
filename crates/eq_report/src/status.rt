//! How the program ends.

ghost use Rattle.std.specs.Prelude.{◌≡◌};
ghost use Rattle.eq_report.specs.Closing as spec;

use eq_compose::Whole;

/// How the program ends.
#[derive(Clone, Copy, Debug, PartialEq, Eq)]
pub enum Status {
    /// The report was put, and all rows together say this.
    Ended(Whole),
    /// The line of a refusal was put.
    Refused,
    /// The store or the sink failed.
    Fault,
    /// Want of memory.
    NoMemory,
}

impl Status {
    /// The number that the system is told.
    pub fn number(self) -> u8
        ensures { result ≡ spec.status_number self }
    {
        match self {
            Status::Ended(Whole::Pass) => 0,
            Status::Ended(Whole::Fail) => 2,
            Status::Ended(Whole::Unknown) => 4,
            Status::Refused => 16,
            Status::Fault => 17,
            Status::NoMemory => 18,
        }
    }
}
