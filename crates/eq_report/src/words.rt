//! The words of which lines are made.

ghost use Rattle.std.specs.Prelude.{◌≡◌};
ghost use Rattle.eq_report.specs.Words as spec;

use crate::refusal::{PortFault, TextFault, Which};
use eq_config::ConfigKind;
use eq_verilog::ElabKind;
use eq_vlex::LexKind;

fn config_word(kind: ConfigKind) -> &'static [u8]
    ensures { result.now ≡ spec.config_word kind }
{
    match kind {
        ConfigKind::NotAscii => b"NotAscii",
        ConfigKind::NoSection => b"NoSection",
        ConfigKind::UnknownSection => b"UnknownSection",
        ConfigKind::UnknownLine => b"UnknownLine",
        ConfigKind::BadWord => b"BadWord",
        ConfigKind::BadNumber => b"BadNumber",
        ConfigKind::Twice => b"Twice",
        ConfigKind::TooMany => b"TooMany",
        ConfigKind::Missing => b"Missing",
    }
}

fn lex_word(kind: LexKind) -> &'static [u8]
    ensures { result.now ≡ spec.lex_word kind }
{
    match kind {
        LexKind::BadByte => b"BadByte",
        LexKind::OpenComment => b"OpenComment",
        LexKind::OpenAttribute => b"OpenAttribute",
        LexKind::BadNumber => b"BadNumber",
        LexKind::XValue => b"XValue",
        LexKind::TooWide => b"TooWide",
    }
}

/// The word of what is wrong in a line of a file.
pub fn text_word(fault: TextFault) -> &'static [u8]
    ensures { result.now ≡ spec.text_word fault }
{
    match fault {
        TextFault::Config(kind) => config_word(kind),
        TextFault::Lex(kind) => lex_word(kind),
        TextFault::Syntax => b"Syntax",
        TextFault::TooDeep => b"TooDeep",
    }
}

/// The word of what is wrong in a design.
pub fn kind_word(kind: ElabKind) -> &'static [u8]
    ensures { result.now ≡ spec.kind_word kind }
{
    match kind {
        ElabKind::DuplicateModule => b"DuplicateModule",
        ElabKind::NoTop => b"NoTop",
        ElabKind::UnknownModule => b"UnknownModule",
        ElabKind::Recursive => b"Recursive",
        ElabKind::DuplicateName => b"DuplicateName",
        ElabKind::UnknownName => b"UnknownName",
        ElabKind::BadRange => b"BadRange",
        ElabKind::BadTarget => b"BadTarget",
        ElabKind::BadConnection => b"BadConnection",
        ElabKind::PathClash => b"PathClash",
        ElabKind::TwoDrivers => b"TwoDrivers",
        ElabKind::Undriven => b"Undriven",
        ElabKind::NoInit => b"NoInit",
        ElabKind::TwoClocks => b"TwoClocks",
        ElabKind::ClockAsData => b"ClockAsData",
    }
}

pub fn port_word(fault: PortFault) -> &'static [u8]
    ensures { result.now ≡ spec.port_word fault }
{
    match fault {
        PortFault::Missing => b"Missing",
        PortFault::Direction => b"Direction",
        PortFault::Width => b"Width",
        PortFault::Clock => b"Clock",
    }
}

pub fn side_word(side: Which) -> &'static [u8]
    ensures { result.now ≡ spec.side_word side }
{
    match side {
        Which::Gold => b"gold",
        Which::Gate => b"gate",
    }
}
