//! Templates: read, printed, and filled with what the wilds of a pattern captured.

ghost use Rattle.std.specs.Prelude.{◌≡◌, ◌≢◌, ◌<◌, ◌≤◌, [], ℕ, All, length, drop, IfOk, IfErr, IfSome, IfNone, Ok, Err};
ghost use Rattle.eq_names.specs.Name.{IsNameByte, IsName};
ghost use Rattle.eq_names.specs.Reading.{IsFront};
ghost use Rattle.eq_names.specs.Templates as spec;
ghost use Rattle.eq_names.specs.inner.Parts.{ArePartsOf};
ghost use Rattle.eq_names.specs.declared.fault.TplErr.{TplErr};

use crate::fault::TplErr;
use crate::name::Name;
use crate::part::{Part, Parts, part_at, put_part};
use crate::span::{Captures, Span};
use eq_base::{Bytes, Memory};
use std::alloc::Global;
use std::marker::Model;

/// A text with numbers of wilds, to be filled with what they captured. Contracts see the text.
#[derive(Debug, Drop)]
pub struct Template {
    text: Bytes,
    parts: Parts,
}

impl Model for Template {
    ghost use Rattle.std.specs.Prelude.{List, ℕ};
    ghost use Rattle.eq_names.specs.Name.{IsName};
    ghost use Rattle.eq_names.specs.Templates.{part_at};
    ghost use Rattle.eq_names.specs.Reading.{ArePiecesOf};

    ghost Value = { List ℕ };

    ghost view = { λ t. t.text };

    ghost invariant = { λ t.
        IsName t.text × ((wilds : ℕ) × ArePiecesOf (part_at wilds) t.text t.parts) };
}

/// The parts of a text.
fn read_parts(alloc: Global, text: &[u8], wilds: u32) -> Result<Parts, TplErr>
    ensures ok { IfOk result (λ parts. IsFront (spec.part_at wilds) parts text.now []) }
    ensures fault { IfErr result (spec.ExplainsTemplate text.now wilds) }
{
    let mut parts = Parts::new(alloc);
    let mut at = 0;
    while at < text.len() {
        let (part, len) = match part_at(&text[at..], wilds) {
            Ok(found) => found,
            Err(fault) => return Err(fault),
        };
        parts.push(part)?;
        at += len;
    }
    Ok(parts)
}

/// Reads a whole text that isn't empty.
fn read_text(alloc: Global, text: &[u8], wilds: u32) -> Result<Template, TplErr>
    requires { All IsNameByte text.now }
    ensures ok { IfOk result (λ template. (template ≡ text.now) × spec.IsTemplate text.now wilds) }
    ensures fault { IfErr result (spec.ExplainsTemplate text.now wilds) }
{
    if text.is_empty() {
        return Err(TplErr::Empty);
    }
    let parts = read_parts(alloc, text, wilds)?;
    let text = Bytes::from_slice(alloc, text)?;
    Ok(Template { text, parts })
}

/// The parts filled with the text of the spans.
fn filled(alloc: Global, parts: &[Part], name: &[u8], spans: &[Span]) -> Result<Vec<u8>, Memory>
    requires spans { All (spec.IsSpanOf name.now) spans.now }
    requires parts { ArePartsOf (length spans.now) parts.now }
    ensures { IfOk result (λ text. text.items ≡ spec.parts_text name.now spans.now parts.now) }
{
    let mut text = Vec::new(alloc);
    for part in parts {
        put_part(&mut text, *part, name, spans)?;
    }
    Ok(text)
}

impl Template {
    /// Reads a whole text as one template, for a pattern of so many wilds.
    pub fn read(alloc: Global, text: &[u8], wilds: u32) -> Result<Template, TplErr>
        requires { All IsNameByte text.now }

        // What is answered is so,
        ensures ok { IfOk result (λ template. (template ≡ text.now) × spec.IsTemplate text.now wilds) }
        ensures fault { IfErr result (spec.ExplainsTemplate text.now wilds) }

        // and what is so is answered.
        ensures only_ok { spec.IsTemplate text.now wilds → spec.IsTemplateOrNoMemory result (Ok text.now) }
        ensures only_fault { (fault : TplErr) →
            spec.HasTemplateFault text.now wilds fault → spec.IsTemplateOrNoMemory result (Err fault) }
    {
        read_text(alloc, text, wilds)
    }

    /// The template filled with the text of spans of a name, as many as the wilds that it was read
    /// with; None where that is no text.
    pub fn fill(&self, alloc: Global, name: &[u8], caps: &Captures) -> Result<Option<Name>, Memory>
        requires bytes { All IsNameByte name.now }
        requires template { spec.IsTemplate self.now (length caps.now) }
        requires spans { All (spec.IsSpanOf name.now) caps.now }
        ensures some { IfOk result (λ filled. IfSome filled (λ text.
            (text ≢ []) × spec.IsFilled self.now name.now caps.now text)) }
        ensures none { IfOk result (λ filled. IfNone filled (spec.IsFilled self.now name.now caps.now [])) }
    {
        let text = filled(alloc, self.parts.as_slice(), name, caps.as_slice())?;
        Ok(Name::from_vec(text))
    }

    /// The text that it was read from.
    pub fn print(&self, alloc: Global) -> Result<Name, Memory>
        ensures { IfOk result (λ name. name ≡ self.now) }
    {
        Name::of(alloc, self.text.as_slice())
    }
}
