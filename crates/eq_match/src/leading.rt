//! Where a match line leads: the net that the filled template names.

ghost use Rattle.std.specs.Prelude.{◌≡◌, ◌<◌, ◌↔◌, true, [], ℕ, List, All, IfOk, IfSome, IfNone, IsTrue, length};
ghost use Rattle.eq_names.specs.Name.{IsNameByte};
ghost use Rattle.eq_names.specs.Tables.{number_of};
ghost use Rattle.eq_names.specs.Templates.{IsFilled, IsSpanOf, IsTemplate};
ghost use Rattle.eq_net.specs.Nets.{width_of};
ghost use Rattle.eq_net.specs.Whole.{parts_of};
ghost use Rattle.eq_match.specs.Fitting.{FitsPattern};
ghost use Rattle.eq_match.specs.NetPairs.{IsFilling, LeadsFrom};
ghost use Rattle.eq_match.specs.inner.Finding.{FindsFilling};
ghost use Rattle.eq_match.specs.inner.Indexing.{IsIndex};

use crate::index::{Index, net_at};
use eq_base::Memory;
use eq_names::laws::{captured_matches, one_capture, one_filling};
use eq_names::{Captures, Name, NameTable, Pattern, Template};
use eq_net::{Net, NetInfo};
use std::alloc::Global;

/// The number of a text, where it has one. An empty text is no name, and has none.
fn number(names: &NameTable, text: Option<Name>) -> Option<u32>
    ensures some { IfSome text (λ t. result ≡ number_of names.now t) }
    ensures none { IfNone text (result ≡ number_of names.now []) }
{
    match text {
        Some(text) => names.find(text.bytes()),
        None => names.find(&[]),
    }
}

/// The number of the name to which a template is filled.
fn filled(
    alloc: Global,
    template: &Template,
    name: &[u8],
    spans: &Captures,
    names: &NameTable,
) -> Result<Option<u32>, Memory>
    requires bytes { All IsNameByte name.now }
    requires template { IsTemplate template.now (length spans.now) }
    requires spans { All (IsSpanOf name.now) spans.now }
    ensures { IfOk result (λ found. (text : List ℕ) × IsFilled template.now name.now spans.now text
        ×
        (found ≡ number_of names.now text)) }
{
    let text = template.fill(alloc, name, spans)?;
    Ok(number(names, text))
}

/// The number of the name to which a pattern and a template lead from a name.
fn found(
    alloc: Global,
    pattern: &Pattern,
    template: &Template,
    name: &[u8],
    names: &NameTable,
) -> Result<Option<u32>, Memory>
    requires bytes { All IsNameByte name.now }
    requires fits { FitsPattern pattern.now template.now }
    ensures { IfOk result (FindsFilling pattern.now template.now name.now names.now) }
{
    captured_matches();
    one_capture();
    one_filling();
    match pattern.captures(alloc, name)? {
        Some(spans) => filled(alloc, template, name, &spans, names),
        None => Ok(None),
    }
}

/// Whether a line may pair a net with one of the other side.
fn is_end(net: &NetInfo, there: &NetInfo, seen: bool) -> bool
    ensures { IsTrue result ↔ ((seen ≡ true) × (width_of net.now ≡ width_of there.now)) }
{
    seen && net.width() == there.width()
}

/// The net of the other side to which a line leads from net k.
pub fn lead(
    alloc: Global,
    here: &Net,
    here_index: &Index,
    there: &Net,
    there_index: &Index,
    pattern: &Pattern,
    template: &Template,
    k: u32,
) -> Result<Option<u32>, Memory>
    requires here { IsIndex (parts_of here.now) here_index.now.names here_index.now.seen.items }
    requires there { IsIndex (parts_of there.now) there_index.now.names there_index.now.seen.items }
    requires fits { FitsPattern pattern.now template.now }
    requires within { k < length here.now.nets }
    ensures some { IfOk result (λ found. IfSome found (LeadsFrom (parts_of here.now) (parts_of
        there.now) pattern.now template.now k)) }
    ensures none { IfOk result (λ found. IfNone found ((h : ℕ) → ¬ LeadsFrom (parts_of here.now)
        (parts_of there.now) pattern.now template.now k h)) }
{
    if !here_index.sees(k) {
        return Ok(None);
    }
    let net = net_at(here, k);
    match found(
        alloc,
        pattern,
        template,
        net.name.bytes(),
        &there_index.names,
    )? {
        Some(h) => {
            if is_end(net, net_at(there, h), there_index.sees(h)) {
                Ok(Some(h))
            } else {
                Ok(None)
            }
        }
        None => Ok(None),
    }
}
