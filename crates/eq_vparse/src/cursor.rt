//! A place in a list of tokens.

ghost use Rattle.std.specs.Prelude.{◌≡◌, ◌==◌, [], ◌∷◌, ◌-◌, List, length, slice_get, drop, IfSome, IfNone};
ghost use Rattle.std.specs.Option.{option_copied};
ghost use Rattle.eq_vlex.specs.declared.token.TokenKind.{TokenKind};
ghost use Rattle.eq_vparse.specs.Reading.{kinds, read, Reads, name_at, decimal_at, sized_at, takes as takes_lem, takes_key as takes_key_lem, expect as expect_lem, expect_key as expect_key_lem};
ghost use Rattle.eq_vparse.specs.Tests.{is_mark as is_mark_lem, is_key as is_key_lem, is_word as is_word_lem, is_end as is_end_lem, mark_number, key_number};

use crate::stop::Stop;
use eq_names::Name;
use eq_vlex::{Constant, Key, Mark, Token, TokenKind};
use std::alloc::Global;
use std::marker::Model;

fn same_mark(a: Mark, b: Mark) -> bool
    ensures { result ≡ (mark_number a == mark_number b) }
{
    a == b
}

fn same_key(a: Key, b: Key) -> bool
    ensures { result ≡ (key_number a == key_number b) }
{
    a == b
}

/// What is left of a list of tokens. Contracts see the tokens that are left, without their places in the text.
#[derive(Drop)]
pub(crate) struct Cursor<'t> {
    rest: &'t [Token],
}

impl<'t> Model for Cursor<'t> {
    ghost use Rattle.std.specs.Prelude.{List};
    ghost use Rattle.eq_vlex.specs.declared.token.TokenKind.{TokenKind};

    ghost Value = { List TokenKind };

    ghost use Rattle.eq_vparse.specs.Reading.{kinds};

    ghost view = { λ c. kinds c.rest.now };
}

impl<'t> Cursor<'t> {
    pub fn new(tokens: &'t [Token]) -> Cursor<'t>
        ensures { result ≡ kinds tokens.now }
    {
        Cursor { rest: tokens }
    }

    /// How many tokens are left.
    pub fn left(&self) -> usize
        ensures { result ≡ length self.now }
    {
        self.rest.len()
    }

    /// Whether no token is left.
    pub fn is_end(&self) -> bool
        ensures { result ≡ is_end_lem self.now }
    {
        self.rest.is_empty()
    }

    /// The next token.
    pub fn peek(&self) -> Option<&'t TokenKind>
        ensures { option_copied result ≡ slice_get self.now 0 }
    {
        match self.rest {
            [] => None,
            [first, ..] => Some(&first.kind),
        }
    }

    /// Goes over the next token, if there is one.
    pub fn advance(&mut self)
        ensures { self.new ≡ drop 1 self.old }
    {
        if let [_, rest @ ..] = self.rest {
            self.rest = rest;
        }
    }

    /// No sentence goes on here.
    pub fn wrong(&self) -> Stop
        ensures { result ≡ Stop.Syntax (length self.now) }
    {
        Stop::Syntax { left: self.left() }
    }

    /// What begins here is too deep.
    pub fn too_deep(&self) -> Stop
        ensures { result ≡ Stop.TooDeep (length self.now) }
    {
        Stop::TooDeep { left: self.left() }
    }

    #[tactic(auto, unfolding(crate::specs::Reading::name_at))]
    pub fn name(&mut self, alloc: Global) -> Result<Name, Stop>
        ensures { Reads result self.new (name_at self.old) }
    {
        match self.peek() {
            Some(TokenKind::Word(name)) => {
                let name = name.copy(alloc)?;
                self.advance();
                Ok(name)
            }
            _ => Err(self.wrong()),
        }
    }

    #[tactic(auto, unfolding(crate::specs::Reading::decimal_at))]
    pub fn decimal(&mut self) -> Result<u32, Stop>
        ensures { Reads result self.new (decimal_at self.old) }
    {
        match self.rest {
            [
                Token {
                    kind: TokenKind::Decimal(value),
                    ..
                },
                rest @ ..,
            ] => {
                self.rest = rest;
                Ok(*value)
            }
            _ => Err(self.wrong()),
        }
    }

    #[tactic(auto, unfolding(crate::specs::Reading::sized_at))]
    pub fn sized(&mut self) -> Result<Constant, Stop>
        ensures { Reads result self.new (sized_at self.old) }
    {
        match self.rest {
            [
                Token {
                    kind: TokenKind::Sized(value),
                    ..
                },
                rest @ ..,
            ] => {
                self.rest = rest;
                Ok(*value)
            }
            _ => Err(self.wrong()),
        }
    }

    /// Whether the next token is this mark.
    #[tactic(auto, unfolding(crate::specs::Tests::is_mark))]
    pub fn is_mark(&self, mark: Mark) -> bool
        ensures { result ≡ is_mark_lem mark self.now }
    {
        match self.peek() {
            Some(TokenKind::Mark(found)) => same_mark(*found, mark),
            _ => false,
        }
    }

    /// Whether the next token is this key.
    #[tactic(auto, unfolding(crate::specs::Tests::is_key))]
    pub fn is_key(&self, key: Key) -> bool
        ensures { result ≡ is_key_lem key self.now }
    {
        match self.peek() {
            Some(TokenKind::Key(found)) => same_key(*found, key),
            _ => false,
        }
    }

    /// Whether the next token is a name.
    #[tactic(auto, unfolding(crate::specs::Tests::is_word))]
    pub fn is_word(&self) -> bool
        ensures { result ≡ is_word_lem self.now }
    {
        matches!(self.peek(), Some(TokenKind::Word(_)))
    }

    /// Goes over this mark, if it stands here.
    #[tactic(auto, unfolding(crate::specs::Reading::takes))]
    pub fn takes(&mut self, mark: Mark) -> bool
        ensures { takes_lem mark self.old ≡ read result self.new }
    {
        let found = self.is_mark(mark);
        if found {
            self.advance();
        }
        found
    }

    /// Goes over this key, if it stands here.
    #[tactic(auto, unfolding(crate::specs::Reading::takes_key))]
    pub fn takes_key(&mut self, key: Key) -> bool
        ensures { takes_key_lem key self.old ≡ read result self.new }
    {
        let found = self.is_key(key);
        if found {
            self.advance();
        }
        found
    }

    #[tactic(auto, unfolding(crate::specs::Reading::expect))]
    pub fn expect(&mut self, mark: Mark) -> Result<(), Stop>
        ensures { Reads result self.new (expect_lem mark self.old) }
    {
        if !self.is_mark(mark) {
            return Err(self.wrong());
        }
        self.advance();
        Ok(())
    }

    #[tactic(auto, unfolding(crate::specs::Reading::expect_key))]
    pub fn expect_key(&mut self, key: Key) -> Result<(), Stop>
        ensures { Reads result self.new (expect_key_lem key self.old) }
    {
        if !self.is_key(key) {
            return Err(self.wrong());
        }
        self.advance();
        Ok(())
    }
}
