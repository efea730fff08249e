//! Writes targets.

ghost use Rattle.std.specs.Prelude.{◌≡◌, OnOk};
ghost use Rattle.eq_vparse.specs.Printing.{braced, target_tokens, targets_tokens};
ghost use Rattle.eq_vparse.specs.Text.{put_all};

use crate::print_expression::{comma, index, range};
use crate::text::Text;
use crate::tree::Target;
use eq_base::Memory;
use eq_vlex::Mark;

/// Writes a target.
#[cycle(targets)]
#[tactic(auto, using(crate::proofs::Printed::target_concat))]
pub fn target(out: &mut Text, t: &Target) -> Result<(), Memory>
    ensures { OnOk result (out.new ≡ put_all out.old (target_tokens t.now)) }
{
    match t {
        Target::Net(name) => out.name(name),
        Target::Bit(name, place) => {
            out.name(name)?;
            index(out, *place)
        }
        Target::Part(name, left, right) => {
            out.name(name)?;
            range(out, *left, *right)
        }
        Target::Concat(parts) => concat(out, parts.as_slice()),
    }
}

/// Writes a concatenation.
#[cycle(targets)]
#[tactic(auto, using(crate::proofs::Texts::put_append))]
fn concat(out: &mut Text, parts: &[Target]) -> Result<(), Memory>
    ensures { OnOk result (out.new ≡ put_all out.old (braced (targets_tokens parts.now))) }
{
    out.mark(Mark::LeftBrace)?;
    targets(out, parts)?;
    out.mark(Mark::RightBrace)
}

/// Writes targets with commas between them.
#[cycle(targets)]
fn targets(out: &mut Text, parts: &[Target]) -> Result<(), Memory>
    ensures { OnOk result (out.new ≡ put_all out.old (targets_tokens parts.now)) }
{
    for at in 0..parts.len() {
        comma(out, at)?;
        target(out, &parts[at])?;
    }
    Ok(())
}
