//! The reader of designs of the first form.

ghost use Rattle.std.specs.Prelude.{◌≡◌, IfOk, IfSome, IfNone};
ghost use Rattle.eq_first.specs.declared.module.Module.{Module as ModuleValue};
ghost use Rattle.eq_first.specs.Well.{IsWellFormed};
ghost use Rattle.eq_first.specs.Design.{IsModule};

use crate::module::Module;
use crate::sentence::module;
use crate::token::tokens;
use eq_base::Memory;
use std::alloc::Global;

/// The module that a whole text is. `None` exactly where the text isn't a design of the first form whose module is called `top`.
pub fn read_module(alloc: Global, text: &[u8], top: &[u8]) -> Result<Option<Module>, Memory>
    ensures some { IfOk result (λ r. IfSome r (IsModule text.now top.now)) }
    ensures none { IfOk result (λ r. IfNone r ((m : ModuleValue) → IsModule text.now top.now m → ⊥)) }
    ensures well_formed { IfOk result (λ r. IfSome r IsWellFormed) }
{
    match tokens(alloc, text)? {
        None => Ok(None),
        Some(tokens) => module(alloc, tokens.as_slice(), top),
    }
}
