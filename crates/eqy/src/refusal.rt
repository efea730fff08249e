//! Refused inputs, and the one line that each of them gets.

ghost use Rattle.std.specs.Prelude.{◌≡◌, ◌++◌, IfOk, codes, decimal};
ghost use Rattle.eqy.specs.Lines.{refusal_line};

use eq_base::{Bytes, Memory};
use std::alloc::Global;

/// Why an input is refused.
#[derive(Debug, Drop)]
pub enum Refusal {
    /// The words name no file.
    Usage,
    /// Nothing has this name.
    Absent(Bytes),
    /// What has this name is too long, or in no form that is read yet.
    NotYet(Bytes),
    /// The ports of the two designs differ.
    PortsNotYet,
    /// There are more than 12 inputs, this many.
    TooWide(u64),
}

impl Refusal {
    /// The line, with its line feed.
    pub fn line(&self, alloc: Global) -> Result<Vec<u8>, Memory>
        ensures { IfOk result (λ line. line.items ≡ refusal_line self.now) }
    {
        match self {
            Refusal::Usage => text(alloc, USAGE),
            Refusal::Absent(name) => about(alloc, name.as_slice(), b": no such file\n"),
            Refusal::NotYet(name) => about(alloc, name.as_slice(), b": NotYet\n"),
            Refusal::PortsNotYet => text(alloc, b"eqy: ports: NotYet\n"),
            Refusal::TooWide(inputs) => too_wide(alloc, *inputs),
        }
    }
}

const USAGE: &[u8] =
    b"eqy: usage: eqy [-j N] [-d DIR] [-r] [-x] [--json NAME] FILE | eqy gen SEED SIZE\n";

fn text(alloc: Global, bytes: &[u8]) -> Result<Vec<u8>, Memory>
    ensures { IfOk result (λ line. line.items ≡ bytes.now) }
{
    Vec::from_slice(alloc, bytes)
}

/// A line about a file.
fn about(alloc: Global, name: &[u8], rest: &[u8]) -> Result<Vec<u8>, Memory>
    ensures { IfOk result (λ line. line.items ≡ codes "eqy: " ++ name.now ++ rest.now) }
{
    let mut line = Vec::new(alloc);
    line.extend_from_slice(b"eqy: ")?;
    line.extend_from_slice(name)?;
    line.extend_from_slice(rest)?;
    Ok(line)
}

fn too_wide(alloc: Global, inputs: u64) -> Result<Vec<u8>, Memory>
    ensures { IfOk result (λ line. line.items ≡ codes "eqy: size: TooWide " ++ decimal inputs ++ codes "\n") }
{
    let line = format!(in alloc; "eqy: size: TooWide {inputs}\n")?;
    Ok(line.into_bytes())
}
