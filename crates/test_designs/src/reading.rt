//! Texts read and elaborated. What is read of a text is spelled as elaboration asks (`sources_are_spelled`).

ghost use Rattle.std.specs.Prelude.{All, IfOk, OnOk};
ghost use Rattle.eq_spelled.specs.Spelling.{IsFromText};

use eq_base::Memory;
use eq_elab::{ElabErr, elaborate};
use eq_names::{Name, NameErr};
use eq_net::Net;
use eq_spelled::laws::sources_are_spelled;
use eq_vlex::{LexErr, tokens};
use eq_vparse::{ParseErr, Source, parse};
use std::alloc::{AllocError, Global};

/// The most bytes of a text, and so the most tokens.
const MOST: usize = 67_108_864;

/// Why there is no netlist.
#[derive(Debug, Drop)]
pub enum Fault {
    /// A text is too long or isn't in the grammar, or the top's name is none.
    Text,
    /// The design is refused.
    Refused(ElabErr),
    /// Want of memory.
    Memory,
}

impl From<AllocError> for Fault {
    fn from(_: AllocError) -> Fault {
        Fault::Memory
    }
}

impl From<LexErr> for Fault {
    fn from(error: LexErr) -> Fault {
        match error {
            LexErr::At { .. } => Fault::Text,
            LexErr::Memory => Fault::Memory,
        }
    }
}

impl From<ParseErr> for Fault {
    fn from(error: ParseErr) -> Fault {
        match error {
            ParseErr::Syntax { .. } => Fault::Text,
            ParseErr::TooDeep { .. } => Fault::Text,
            ParseErr::Memory => Fault::Memory,
        }
    }
}

impl From<NameErr> for Fault {
    fn from(error: NameErr) -> Fault {
        match error {
            NameErr::Empty => Fault::Text,
            NameErr::BadByte { .. } => Fault::Text,
            NameErr::Memory => Fault::Memory,
        }
    }
}

impl From<ElabErr> for Fault {
    fn from(error: ElabErr) -> Fault {
        Fault::Refused(error)
    }
}

/// The modules of a text.
fn source_of(alloc: Global, text: &[u8]) -> Result<Source, Fault>
    ensures { IfOk result IsFromText }
{
    if MOST < text.len() {
        return Err(Fault::Text);
    }
    let tokens = tokens(alloc, text)?;
    if MOST < tokens.len() {
        return Err(Fault::Text);
    }
    Ok(parse(alloc, &tokens)?)
}

/// One source more.
fn add(source: Source, sources: &mut Vec<Source>) -> Result<(), Memory>
    requires before { All IsFromText sources.old.items }
    requires source { IsFromText source }
    ensures { OnOk result (All IsFromText sources.new.items) }
{
    sources.push(source)?;
    Ok(())
}

/// The modules of each text.
fn sources_of(alloc: Global, texts: &[&[u8]]) -> Result<Vec<Source>, Fault>
    ensures { IfOk result (λ sources. All IsFromText sources.items) }
{
    let mut sources = Vec::new(alloc);
    for text in texts {
        let source = source_of(alloc, text)?;
        add(source, &mut sources)?;
    }
    Ok(sources)
}

/// The netlist of the design of these texts with this top.
pub fn netlist_of(alloc: Global, texts: &[&[u8]], top: &[u8]) -> Result<Net, Fault> {
    sources_are_spelled();
    let top = Name::read(alloc, top)?;
    let sources = sources_of(alloc, texts)?;
    Ok(elaborate(alloc, &sources, &top)?)
}
