//! Why a run has no report. Want of memory and faults of the outside are no refusals, and no value here stands for
//! them.

ghost use Rattle.std.specs.Prelude.{◌≡◌};
ghost use Rattle.eq_report.specs.Refusals as spec;

use eq_base::Bytes;
use eq_config::ConfigKind;
use eq_names::Name;
use eq_verilog::{ElabErr, ElabKind};
use eq_vlex::LexKind;

/// Which of the two designs.
#[derive(Clone, Copy)]
pub enum Which {
    Gold,
    Gate,
}

/// What is wrong in a line of a file.
#[derive(Clone, Copy)]
pub enum TextFault {
    /// The text is no configuration.
    Config(ConfigKind),
    /// The text has no tokens.
    Lex(LexKind),
    /// No sentence of the grammar goes on with a token of the line, or with the end of the text.
    Syntax,
    /// Something is nested too deep.
    TooDeep,
}

/// Why a design has no netlist: an `ElabErr` other than want of memory, without the bits of a loop.
#[derive(Drop)]
pub enum DesignFault {
    At { kind: ElabKind, name: Name },
    /// The first bit that is on a loop has this name.
    Loop { name: Name },
    /// What the design costs, or 1,000,000,000 where it is more.
    TooLarge { number: u64 },
}

/// What is wrong with a port, the first of this order that holds.
#[derive(Clone, Copy)]
pub enum PortFault {
    /// Only one of the designs has it.
    Missing,
    /// It is an input of one and an output of the other.
    Direction,
    /// It has two numbers of bits.
    Width,
    /// It is the clock of one, and another one or data in the other.
    Clock,
}

/// Why there is no plan.
#[derive(Drop)]
pub enum PlanFault {
    /// There are so many partitions.
    TooMany { number: u32 },
    /// Two partitions have one name. The bits are gold's at their first outputs.
    SameName { first: Name, second: Name },
}

/// Why a run has no report.
#[derive(Drop)]
pub enum Refusal {
    /// The words are no command.
    Words,
    /// No file has this name.
    Absent {
        name: Bytes,
    },
    /// The file has more than 67,108,864 bytes.
    TooLong {
        name: Bytes,
    },
    /// A line of the file is wrong, counted from 1.
    Text {
        name: Bytes,
        line: u32,
        fault: TextFault,
    },
    /// A design has no netlist.
    Elaboration {
        side: Which,
        fault: DesignFault,
    },
    /// The port of this name differs.
    Ports {
        fault: PortFault,
        name: Name,
    },
    /// The pairs have no plan.
    Plan(PlanFault),
    /// The formulas may get too large, by this number.
    Size {
        number: u64,
    },
}

impl DesignFault {
    /// What elaboration answers in place of a netlist. None is want of memory.
    pub fn of(err: ElabErr) -> Option<DesignFault>
        ensures { result ≡ spec.fault_of err }
    {
        match err {
            ElabErr::At { kind, name } => Some(DesignFault::At { kind, name }),
            ElabErr::Loop { cycle: _, name } => Some(DesignFault::Loop { name }),
            ElabErr::TooLarge { number } => Some(DesignFault::TooLarge { number }),
            ElabErr::Memory => None,
        }
    }
}
