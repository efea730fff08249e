//! Why a design is refused.

use eq_base::Items;
use eq_names::{BitName, Name};

/// Bits in order, as of a loop.
pub type BitNames = Items<BitName>;

/// What is wrong at the place that a name tells: of a module, a net, an instance, a gate or a bit. The conditions are
/// looked for in this order, `TooLarge` after `BadConnection`, and `Loop` last.
#[derive(Clone, Copy, Debug, PartialEq, Eq)]
pub enum ElabKind {
    /// A module has the name of an earlier one.
    DuplicateModule,
    /// No module has the name of the top.
    NoTop,
    /// The module of an instance isn't there; that module.
    UnknownModule,
    /// A module instantiates itself, directly or through others.
    Recursive,
    /// Two directions, two declarations as wire or reg, a port twice in the header, or an instance or gate with the name of
    /// anything else.
    DuplicateName,
    /// A name is used and not declared, a port has no direction, or a direction is of no port.
    UnknownName,
    /// Two ranges of one net, more than 1,024 bits, or a select outside the range, against its direction or of a net
    /// without a range; the net. A repeat of nothing, or an expression of more than 65,536 bits; the module.
    BadRange,
    /// An equation for a reg or an input, an assignment or an initial value of what is no reg, an input that is a reg, or a
    /// bit twice in one target; the net. An output that is connected to no target; the module.
    BadTarget,
    /// A port that the module doesn't have, a port twice, by order not as many as there are ports; the instance. Fewer
    /// than two terminals, or one that hasn't one bit; the gate, or the module for a gate without a name.
    BadConnection,
    /// Two nets have one full name.
    PathClash,
    /// Two equations for a bit, two always items that set it, or two initial values.
    TwoDrivers,
    /// A bit without driver is read, or is one of an output of the top.
    Undriven,
    /// A register has no initial value.
    NoInit,
    /// An always item runs at another edge than the first, or at one that is no input of the top without a range.
    TwoClocks,
    /// The clock is read, or is an output.
    ClockAsData,
}

/// Why there is no netlist.
#[derive(Debug, Drop)]
pub enum ElabErr {
    At { kind: ElabKind, name: Name },
    /// Distinct bits, each reading the next within a cycle and the last reading the first, which has this name.
    Loop { cycle: BitNames, name: Name },
    /// The cost of the design, or 1,000,000,000 where it is more.
    TooLarge { number: u64 },
    /// Want of memory.
    Memory,
}
