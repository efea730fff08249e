//! Drawn texts, which are read, printed and read again.

use crate::reading::tree_of;
use crate::tree_text::source_text;
use eq_vparse::print_source;
use std::alloc::{AllocError, Global};
use std::test::Fail;

/// The next drawn number, below 2^31.
fn draw(seed: &mut u64) -> u64 {
    *seed = seed
        .wrapping_mul(6_364_136_223_846_793_005)
        .wrapping_add(1_442_695_040_888_963_407);
    *seed >> 33
}

const PRIMARIES: [&str; 8] = [
    "a",
    "w[2]",
    "w[3:1]",
    "4'b10_1",
    "\\x.y ",
    "{a, w}",
    "{3{a, 1'h1}}",
    "\\wire ",
];

const OPERATORS: [&str; 17] = [
    "+", "-", "<<", ">>", "<", "<=", ">", ">=", "==", "!==", "&", "^", "^~", "|", "&&", "||", "===",
];

const PREFIXES: [&str; 7] = ["~", "!", "- ", "~& ", "| ", "~^ ", "& ~"];

/// One operand or operator more, round or beside an expression.
const EXPRESSIONS: [&str; 9] = [
    "P",
    "P O E",
    "E O P",
    "U(E)",
    "(E) O UP",
    "{P, E}",
    "E ? P : UP",
    "P ? E : P",
    "(1'h1) ? P : E",
];

const STATEMENTS: [&str; 7] = [
    "q <= E;",
    "begin S end",
    "begin ; S {q, r} <= E; end",
    "if (E) S",
    "if (E) q[1] <= a; else S",
    "if (a) begin S end else ;",
    "if (a) if (E) ; else S",
];

const HEADERS: [&str; 5] = [
    "",
    "()",
    "(a, \\q[0] , c)",
    "(input wire [3:0] a, b, output reg q = 1'h1, r, output c)",
    "(output [0:3] a, input b)",
];

const ITEMS: [&str; 1] = [
    "reg [3:0] r, s = 4'h5; wire w, v = E; assign w = E, {v, w[1]} = E; nand g(w, E), (v, E, E); sub u(), v(a,,E), x(.p(E), .q()); always @(posedge c[0]) S initial begin r = 4'h2; s[1] = 1'h0; end initial w = 1'h1;",
];

const SOURCES: [&str; 1] = ["module mH; I endmodule\nmodule mH; I endmodule\n"];

/// The forms of what an upper case letter stands for. Other bytes stand for themselves.
fn forms(letter: char) -> &'static [&'static str] {
    match letter {
        'E' => &EXPRESSIONS,
        'H' => &HEADERS,
        'I' => &ITEMS,
        'M' => &SOURCES,
        'O' => &OPERATORS,
        'P' => &PRIMARIES,
        'S' => &STATEMENTS,
        'U' => &PREFIXES,
        _ => &[],
    }
}

/// One of some forms, or the first.
fn chosen(forms: &'static [&'static str], seed: &mut u64, first: bool) -> &'static str {
    let drawn = draw(seed) as usize % forms.len().max(1);
    let place = if first { 0 } else { drawn };
    match forms.get(place) {
        Some(form) => form,
        None => "",
    }
}

/// Writes a form of what a letter stands for, or what stands for itself.
fn put_form(
    text: &mut String,
    seed: &mut u64,
    letter: char,
    first: bool,
) -> Result<(), AllocError> {
    let forms = forms(letter);
    if forms.is_empty() {
        return text.push(letter);
    }
    text.push_str(chosen(forms, seed, first))
}

/// A text with a form in the place of each letter that stands for others.
fn expanded(alloc: Global, text: &str, seed: &mut u64, first: bool) -> Result<String, AllocError> {
    let mut forms = String::new(alloc);
    for letter in text.chars() {
        put_form(&mut forms, seed, letter, first)?;
    }
    Ok(forms)
}

/// A drawn text, of forms seven deep and then of first forms, which end within three.
fn drawn(alloc: Global, mut seed: u64) -> Result<String, AllocError> {
    let mut text = String::new(alloc);
    text.push('M')?;
    for turn in 0..10 {
        text = expanded(alloc, &text, &mut seed, turn > 6)?;
    }
    Ok(text)
}

/// Whether a tree that is printed and read again is the same.
fn comes_back(alloc: Global, text: &str) -> Result<bool, Fail> {
    let first = tree_of(alloc, text.as_bytes())??;
    let printed = print_source(alloc, &first)?;
    let second = tree_of(alloc, printed.as_slice())??;
    Ok(source_text(alloc, &first)?.as_str() == source_text(alloc, &second)?.as_str())
}

/// Whether the text of a seed comes back.
fn seed_comes_back(alloc: Global, seed: u64) -> Result<bool, Fail> {
    let text = drawn(alloc, seed)?;
    comes_back(alloc, &text)
}

/// The first of some seeds whose text doesn't come back.
fn first_lost(alloc: Global) -> Result<Option<u64>, Fail> {
    for seed in 0..300u64 {
        if !seed_comes_back(alloc, seed)? {
            return Ok(Some(seed));
        }
    }
    Ok(None)
}

#[test]
fn drawn_trees_come_back(rt: HostRuntime) -> Result<(), Fail> {
    assert_eq!(rt; first_lost(rt.alloc())?, None);
    Ok(())
}
