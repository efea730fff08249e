//! A text of tokens as it is written.

ghost use Rattle.std.specs.Prelude.{◌≡◌, ◌++◌, [], false, OnOk};
ghost use Rattle.eq_vlex.specs.declared.token.TokenKind.TheVariants as kind;
ghost use Rattle.eq_vparse.specs.Text.{gap, put, put_line};

use crate::spelling::{
    is_simple, key_bytes, mark_bytes, push_bytes, push_decimal, push_hexadecimal,
};
use eq_base::{Bytes, Memory};
use eq_names::Name;
use eq_vlex::{Constant, Key, Mark};
use std::alloc::Global;

/// Tokens that stand one behind the other, with a space between two words.
#[derive(Drop)]
pub(crate) struct Text {
    pub bytes: Bytes,
    /// The last token is a word without a space of its own.
    pub after_word: bool,
}

impl Text {
    pub fn new(alloc: Global) -> Text
        ensures { result ≡ record { bytes = []; after_word = false } }
    {
        Text {
            bytes: Bytes::new(alloc),
            after_word: false,
        }
    }

    /// Writes the space between two words.
    fn part(&mut self) -> Result<(), Memory>
        ensures { OnOk result (self.new ≡ record self.old { bytes = self.old.bytes ++ gap self.old.after_word }) }
    {
        if self.after_word {
            self.bytes.push(b' ')?;
        }
        Ok(())
    }

    #[tactic(auto, unfolding(crate::specs::Text::put))]
    pub fn name(&mut self, name: &Name) -> Result<(), Memory>
        ensures { OnOk result (self.new ≡ put self.old (kind.Word name.now)) }
    {
        self.part()?;
        self.after_word = is_simple(name.bytes());
        if self.after_word {
            return push_bytes(&mut self.bytes, name.bytes());
        }
        self.bytes.push(b'\\')?;
        push_bytes(&mut self.bytes, name.bytes())?;
        self.bytes.push(b' ')
    }

    #[tactic(auto, unfolding(crate::specs::Text::put))]
    pub fn key(&mut self, key: Key) -> Result<(), Memory>
        ensures { OnOk result (self.new ≡ put self.old (kind.Key key)) }
    {
        self.part()?;
        self.after_word = true;
        push_bytes(&mut self.bytes, key_bytes(key))
    }

    #[tactic(auto, unfolding(crate::specs::Text::put))]
    pub fn decimal(&mut self, number: u32) -> Result<(), Memory>
        ensures { OnOk result (self.new ≡ put self.old (kind.Decimal number)) }
    {
        self.part()?;
        self.after_word = true;
        push_decimal(&mut self.bytes, number)
    }

    #[tactic(auto, unfolding(crate::specs::Text::put))]
    pub fn constant(&mut self, constant: Constant) -> Result<(), Memory>
        ensures { OnOk result (self.new ≡ put self.old (kind.Sized constant)) }
    {
        self.part()?;
        self.after_word = true;
        push_decimal(&mut self.bytes, constant.size)?;
        push_bytes(&mut self.bytes, b"'h")?;
        push_hexadecimal(&mut self.bytes, constant.value)
    }

    #[tactic(auto, unfolding(crate::specs::Text::put))]
    pub fn mark(&mut self, mark: Mark) -> Result<(), Memory>
        ensures { OnOk result (self.new ≡ put self.old (kind.Mark mark)) }
    {
        self.after_word = false;
        push_bytes(&mut self.bytes, mark_bytes(mark))
    }

    #[tactic(auto, unfolding(crate::specs::Text::put_line))]
    pub fn line(&mut self) -> Result<(), Memory>
        ensures { OnOk result (self.new ≡ put_line self.old) }
    {
        self.after_word = false;
        self.bytes.push(b'\n')
    }
}
