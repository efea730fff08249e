//! The tokens of a design, from the keyword `module` to `endmodule`.

ghost use Rattle.std.specs.Prelude.{◌≡◌, ◌<◌, ◌^◌, [], ◌∷◌, ◌++◌, ◌≤◌, List, length, option_map, position, count_by, IfOk, IfSome, IfNone, OnSome};
ghost use Rattle.eq_first.specs.Phrases.{is_counted as is_counted_lem};
ghost use Rattle.eq_first.specs.Lexing.{token_of, tokens_in};
ghost use Rattle.eq_first.specs.Header.{Knows, add_at};
ghost use Rattle.eq_first.specs.Headers.{head_of};
ghost use Rattle.eq_first.specs.Sentence.{opening_at, entry_at, port_at, start, ports_at, target_at, output_of as output_of_lem, is_semicolon as is_semicolon_lem, body_at, is_ending as is_ending_lem, marks_of as marks_of_lem, expr_at, module_at};
ghost use Rattle.eq_first.specs.Entries.{entry_of};

use crate::expression::expression;
use crate::header::{Header, add, is_plain, place};
use crate::module::{Expr, Module};
use crate::token::{Lexeme, Mark};
use eq_base::Memory;
use std::alloc::Global;

/// A port's two words, and the mark behind them.
#[derive(Clone, Copy)]
struct PortEntry<'a> {
    keyword: &'a [u8],
    name: &'a [u8],
    behind: Mark,
}

/// What follows `module TOP (`.
#[tactic(auto, unfolding(crate::specs::Sentence::opening_at))]
fn opening<'t, 'a>(tokens: &'t [Lexeme<'a>], top: &[u8]) -> Option<&'t [Lexeme<'a>]>
    ensures { option_map (λ r. tokens_in r.now) result ≡ opening_at top.now (tokens_in tokens.now) }
{
    match tokens {
        [
            Lexeme::Word(keyword),
            Lexeme::Word(name),
            Lexeme::Mark(Mark::Open),
            rest @ ..,
        ] => {
            if *keyword != b"module".as_slice() {
                return None;
            }
            if *name != top {
                return None;
            }
            if !is_plain(top) {
                return None;
            }
            Some(rest)
        }
        _ => None,
    }
}

/// The port at the front, which takes three tokens.
#[tactic(auto, unfolding(crate::specs::Sentence::entry_at))]
fn entry<'a>(tokens: &[Lexeme<'a>]) -> Option<PortEntry<'a>>
    ensures read { option_map entry_of result ≡ entry_at (tokens_in tokens.now) }
    ensures long { OnSome result (3 ≤ length tokens.now) }
{
    match tokens {
        [
            Lexeme::Word(keyword),
            Lexeme::Word(name),
            Lexeme::Mark(behind),
            ..
        ] => Some(PortEntry {
            keyword: *keyword,
            name: *name,
            behind: *behind,
        }),
        _ => None,
    }
}

/// The name in `; assign NAME =`, and what follows.
#[tactic(auto, unfolding(crate::specs::Sentence::target_at))]
fn target<'t, 'a>(tokens: &'t [Lexeme<'a>]) -> Option<(&'a [u8], &'t [Lexeme<'a>])>
    ensures { option_map (λ r. (r.0.now, tokens_in r.1.now)) result ≡ target_at (tokens_in tokens.now) }
{
    match tokens {
        [
            Lexeme::Mark(Mark::Semicolon),
            Lexeme::Word(keyword),
            Lexeme::Word(name),
            Lexeme::Mark(Mark::Equals),
            rest @ ..,
        ] => {
            if *keyword != b"assign".as_slice() {
                return None;
            }
            Some((*name, rest))
        }
        _ => None,
    }
}

fn is_semicolon(token: Lexeme<'_>) -> bool
    ensures { result ≡ is_semicolon_lem (token_of token.entry) }
{
    matches!(token, Lexeme::Mark(Mark::Semicolon))
}

/// `endmodule` and nothing else.
#[tactic(auto, unfolding(crate::specs::Sentence::is_ending))]
fn is_ending(tokens: &[Lexeme<'_>]) -> bool
    ensures { result ≡ is_ending_lem (tokens_in tokens.now) }
{
    match tokens {
        [Lexeme::Word(keyword)] => *keyword == b"endmodule".as_slice(),
        _ => false,
    }
}

/// The header with the port at the front, and the mark behind it.
#[tactic(auto, unfolding(crate::specs::Sentence::port_at))]
fn port<'a>(
    alloc: Global,
    header: Header<'a>,
    tokens: &[Lexeme<'a>],
) -> Result<Option<(Header<'a>, Mark)>, Memory>
    requires known { Knows header.places header.ports }
    requires few { length header.ports < 2 ^ 32 }
    ensures known { IfOk result (λ o. IfSome o (λ r. Knows r.0.places r.0.ports)) }
    ensures few { IfOk result (λ o. IfSome o (λ r. length r.0.ports < 2 ^ 32)) }
    ensures read { IfOk result (λ o. option_map (λ r. (head_of r.0, r.1)) o ≡ port_at (head_of header.entry) (tokens_in tokens.now)) }
    ensures long { IfOk result (λ o. OnSome o (3 ≤ length tokens.now)) }
{
    let Some(entry) = entry(tokens) else {
        return Ok(None);
    };
    let Some(more) = add(alloc, header, entry.keyword, entry.name)? else {
        return Ok(None);
    };
    Ok(Some((more, entry.behind)))
}

/// The ports up to the closing parenthesis, and what follows it.
fn ports<'t, 'a>(
    alloc: Global,
    tokens: &'t [Lexeme<'a>],
) -> Result<Option<(Header<'a>, &'t [Lexeme<'a>])>, Memory>
    ensures known { IfOk result (λ o. IfSome o (λ r. Knows r.0.places r.0.ports)) }
    ensures few { IfOk result (λ o. IfSome o (λ r. length r.0.ports < 2 ^ 32)) }
    ensures read { IfOk result (λ o. option_map (λ r. (head_of r.0, tokens_in r.1.now)) o ≡ ports_at start (tokens_in tokens.now)) }
{
    let mut header = Header::new(alloc);
    let mut at = 0;
    loop {
        let Some((more, behind)) = port(alloc, header, &tokens[at..])? else {
            return Ok(None);
        };
        header = more;
        at += 3;
        match behind {
            Mark::Comma => {}
            Mark::Close => return Ok(Some((header, &tokens[at..]))),
            _ => return Ok(None),
        }
    }
}

/// The place of the output, which has this name.
#[tactic(auto, unfolding(crate::specs::Sentence::output_of))]
fn output_of(header: &Header<'_>, target: &[u8]) -> Option<u32>
    requires { Knows header.now.places header.now.ports }
    ensures { result ≡ output_of_lem (head_of header.now) target.now }
{
    let output = header.output?;
    let at = place(&header.places, target)?;
    if at != output {
        return None;
    }
    Some(at)
}

fn semicolon_at(tokens: &[Lexeme<'_>]) -> Option<usize>
    ensures { result ≡ position (λ t. is_semicolon_lem (token_of t)) tokens.now }
{
    tokens.iter().position(|token| is_semicolon(*token))
}

/// What stands before the first semicolon, and what stands behind it.
fn body<'t, 'a>(tokens: &'t [Lexeme<'a>]) -> Option<(&'t [Lexeme<'a>], &'t [Lexeme<'a>])>
    ensures { option_map (λ r. (tokens_in r.0.now, tokens_in r.1.now)) result ≡ body_at (tokens_in tokens.now) }
{
    let at = semicolon_at(tokens)?;
    Some((&tokens[..at], &tokens[at + 1..]))
}

fn is_counted(token: Lexeme<'_>) -> bool
    ensures { result ≡ is_counted_lem (token_of token.entry) }
{
    matches!(
        token,
        Lexeme::Mark(Mark::Open | Mark::Not | Mark::And | Mark::Xor | Mark::Or)
    )
}

fn count_marks(tokens: &[Lexeme<'_>]) -> usize
    ensures { result ≡ count_by (λ t. is_counted_lem (token_of t)) tokens.now }
{
    tokens.iter().filter(|token| is_counted(**token)).count()
}

fn marks(tokens: &[Lexeme<'_>]) -> usize
    ensures { result ≡ marks_of_lem (tokens_in tokens.now) }
{
    count_marks(tokens)
}

/// The expression that the tokens are, if it has at most 1,000 marks.
#[tactic(auto, unfolding(crate::specs::Sentence::expr_at))]
fn expr(alloc: Global, header: &Header<'_>, tokens: &[Lexeme<'_>]) -> Result<Option<Expr>, Memory>
    requires { Knows header.now.places header.now.ports }
    ensures { IfOk result (λ o. o ≡ expr_at header.now.ports (tokens_in tokens.now)) }
{
    if marks(tokens) > 1000 {
        return Ok(None);
    }
    expression(alloc, header, tokens)
}

/// The module that the tokens are, which is called `top`.
#[tactic(auto, unfolding(crate::specs::Sentence::module_at))]
pub(crate) fn module(
    alloc: Global,
    tokens: &[Lexeme<'_>],
    top: &[u8],
) -> Result<Option<Module>, Memory>
    ensures { IfOk result (λ o. o ≡ module_at top.now (tokens_in tokens.now)) }
{
    let Some(rest) = opening(tokens, top) else {
        return Ok(None);
    };
    let Some((header, rest)) = ports(alloc, rest)? else {
        return Ok(None);
    };
    let Some((target, rest)) = target(rest) else {
        return Ok(None);
    };
    let Some(output) = output_of(&header, target) else {
        return Ok(None);
    };
    let Some((body, rest)) = body(rest) else {
        return Ok(None);
    };
    if !is_ending(rest) {
        return Ok(None);
    }
    let Some(expr) = expr(alloc, &header, body)? else {
        return Ok(None);
    };
    Ok(Some(Module {
        ports: header.ports,
        output,
        expr,
    }))
}
