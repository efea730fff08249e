//! Marks and keywords.

use crate::tokens::{Row, Wanted, first_other};
use eq_vlex::{Key, Mark};
use std::test::Fail;

static MARKS: [Row; 36] = [
    (b"===", &[(Wanted::Mark(Mark::CaseEqual), 0, 3)]),
    (b"!==", &[(Wanted::Mark(Mark::CaseNotEqual), 0, 3)]),
    (b"==", &[(Wanted::Mark(Mark::Equal), 0, 2)]),
    (b"!=", &[(Wanted::Mark(Mark::NotEqual), 0, 2)]),
    (b"<=", &[(Wanted::Mark(Mark::LessEqual), 0, 2)]),
    (b">=", &[(Wanted::Mark(Mark::GreaterEqual), 0, 2)]),
    (b"<<", &[(Wanted::Mark(Mark::ShiftLeft), 0, 2)]),
    (b">>", &[(Wanted::Mark(Mark::ShiftRight), 0, 2)]),
    (b"&&", &[(Wanted::Mark(Mark::LogicalAnd), 0, 2)]),
    (b"||", &[(Wanted::Mark(Mark::LogicalOr), 0, 2)]),
    (b"~&", &[(Wanted::Mark(Mark::TildeAnd), 0, 2)]),
    (b"~|", &[(Wanted::Mark(Mark::TildeOr), 0, 2)]),
    (b"~^", &[(Wanted::Mark(Mark::TildeXor), 0, 2)]),
    (b"^~", &[(Wanted::Mark(Mark::XorTilde), 0, 2)]),
    (b"(", &[(Wanted::Mark(Mark::LeftParen), 0, 1)]),
    (b")", &[(Wanted::Mark(Mark::RightParen), 0, 1)]),
    (b"[", &[(Wanted::Mark(Mark::LeftBracket), 0, 1)]),
    (b"]", &[(Wanted::Mark(Mark::RightBracket), 0, 1)]),
    (b"{", &[(Wanted::Mark(Mark::LeftBrace), 0, 1)]),
    (b"}", &[(Wanted::Mark(Mark::RightBrace), 0, 1)]),
    (b";", &[(Wanted::Mark(Mark::Semicolon), 0, 1)]),
    (b",", &[(Wanted::Mark(Mark::Comma), 0, 1)]),
    (b".", &[(Wanted::Mark(Mark::Dot), 0, 1)]),
    (b":", &[(Wanted::Mark(Mark::Colon), 0, 1)]),
    (b"@", &[(Wanted::Mark(Mark::At), 0, 1)]),
    (b"=", &[(Wanted::Mark(Mark::Assign), 0, 1)]),
    (b"?", &[(Wanted::Mark(Mark::Question), 0, 1)]),
    (b"~", &[(Wanted::Mark(Mark::Tilde), 0, 1)]),
    (b"!", &[(Wanted::Mark(Mark::Exclamation), 0, 1)]),
    (b"&", &[(Wanted::Mark(Mark::And), 0, 1)]),
    (b"|", &[(Wanted::Mark(Mark::Or), 0, 1)]),
    (b"^", &[(Wanted::Mark(Mark::Xor), 0, 1)]),
    (b"+", &[(Wanted::Mark(Mark::Plus), 0, 1)]),
    (b"-", &[(Wanted::Mark(Mark::Minus), 0, 1)]),
    (b"<", &[(Wanted::Mark(Mark::Less), 0, 1)]),
    (b">", &[(Wanted::Mark(Mark::Greater), 0, 1)]),
];

static MARKS_BESIDE_MARKS: [Row; 16] = [
    (
        b"<<=",
        &[
            (Wanted::Mark(Mark::ShiftLeft), 0, 2),
            (Wanted::Mark(Mark::Assign), 2, 3),
        ],
    ),
    (
        b"====",
        &[
            (Wanted::Mark(Mark::CaseEqual), 0, 3),
            (Wanted::Mark(Mark::Assign), 3, 4),
        ],
    ),
    (
        b"=====",
        &[
            (Wanted::Mark(Mark::CaseEqual), 0, 3),
            (Wanted::Mark(Mark::Equal), 3, 5),
        ],
    ),
    (
        b"!===",
        &[
            (Wanted::Mark(Mark::CaseNotEqual), 0, 3),
            (Wanted::Mark(Mark::Assign), 3, 4),
        ],
    ),
    (
        b"!!=",
        &[
            (Wanted::Mark(Mark::Exclamation), 0, 1),
            (Wanted::Mark(Mark::NotEqual), 1, 3),
        ],
    ),
    (
        b"~^^",
        &[
            (Wanted::Mark(Mark::TildeXor), 0, 2),
            (Wanted::Mark(Mark::Xor), 2, 3),
        ],
    ),
    (
        b"^~^",
        &[
            (Wanted::Mark(Mark::XorTilde), 0, 2),
            (Wanted::Mark(Mark::Xor), 2, 3),
        ],
    ),
    (
        b"~~&",
        &[
            (Wanted::Mark(Mark::Tilde), 0, 1),
            (Wanted::Mark(Mark::TildeAnd), 1, 3),
        ],
    ),
    (
        b"~|^~",
        &[
            (Wanted::Mark(Mark::TildeOr), 0, 2),
            (Wanted::Mark(Mark::XorTilde), 2, 4),
        ],
    ),
    (
        b"&&&",
        &[
            (Wanted::Mark(Mark::LogicalAnd), 0, 2),
            (Wanted::Mark(Mark::And), 2, 3),
        ],
    ),
    (
        b"|||",
        &[
            (Wanted::Mark(Mark::LogicalOr), 0, 2),
            (Wanted::Mark(Mark::Or), 2, 3),
        ],
    ),
    (
        b">>>",
        &[
            (Wanted::Mark(Mark::ShiftRight), 0, 2),
            (Wanted::Mark(Mark::Greater), 2, 3),
        ],
    ),
    (
        b"<=>",
        &[
            (Wanted::Mark(Mark::LessEqual), 0, 2),
            (Wanted::Mark(Mark::Greater), 2, 3),
        ],
    ),
    (
        b">==",
        &[
            (Wanted::Mark(Mark::GreaterEqual), 0, 2),
            (Wanted::Mark(Mark::Assign), 2, 3),
        ],
    ),
    (
        b")(",
        &[
            (Wanted::Mark(Mark::RightParen), 0, 1),
            (Wanted::Mark(Mark::LeftParen), 1, 2),
        ],
    ),
    (
        b"= ==",
        &[
            (Wanted::Mark(Mark::Assign), 0, 1),
            (Wanted::Mark(Mark::Equal), 2, 4),
        ],
    ),
];

static KEYWORDS: [Row; 54] = [
    (b"module", &[(Wanted::Key(Key::Module), 0, 6)]),
    (b"endmodule", &[(Wanted::Key(Key::Endmodule), 0, 9)]),
    (b"input", &[(Wanted::Key(Key::Input), 0, 5)]),
    (b"output", &[(Wanted::Key(Key::Output), 0, 6)]),
    (b"wire", &[(Wanted::Key(Key::Wire), 0, 4)]),
    (b"reg", &[(Wanted::Key(Key::Reg), 0, 3)]),
    (b"assign", &[(Wanted::Key(Key::Assign), 0, 6)]),
    (b"always", &[(Wanted::Key(Key::Always), 0, 6)]),
    (b"initial", &[(Wanted::Key(Key::Initial), 0, 7)]),
    (b"posedge", &[(Wanted::Key(Key::Posedge), 0, 7)]),
    (b"begin", &[(Wanted::Key(Key::Begin), 0, 5)]),
    (b"end", &[(Wanted::Key(Key::End), 0, 3)]),
    (b"if", &[(Wanted::Key(Key::If), 0, 2)]),
    (b"else", &[(Wanted::Key(Key::Else), 0, 4)]),
    (b"and", &[(Wanted::Key(Key::And), 0, 3)]),
    (b"nand", &[(Wanted::Key(Key::Nand), 0, 4)]),
    (b"or", &[(Wanted::Key(Key::Or), 0, 2)]),
    (b"nor", &[(Wanted::Key(Key::Nor), 0, 3)]),
    (b"xor", &[(Wanted::Key(Key::Xor), 0, 3)]),
    (b"xnor", &[(Wanted::Key(Key::Xnor), 0, 4)]),
    (b"buf", &[(Wanted::Key(Key::Buf), 0, 3)]),
    (b"not", &[(Wanted::Key(Key::Not), 0, 3)]),
    (b"inout", &[(Wanted::Key(Key::Reserved), 0, 5)]),
    (b"tri", &[(Wanted::Key(Key::Reserved), 0, 3)]),
    (b"supply0", &[(Wanted::Key(Key::Reserved), 0, 7)]),
    (b"supply1", &[(Wanted::Key(Key::Reserved), 0, 7)]),
    (b"parameter", &[(Wanted::Key(Key::Reserved), 0, 9)]),
    (b"localparam", &[(Wanted::Key(Key::Reserved), 0, 10)]),
    (b"defparam", &[(Wanted::Key(Key::Reserved), 0, 8)]),
    (b"function", &[(Wanted::Key(Key::Reserved), 0, 8)]),
    (b"endfunction", &[(Wanted::Key(Key::Reserved), 0, 11)]),
    (b"task", &[(Wanted::Key(Key::Reserved), 0, 4)]),
    (b"endtask", &[(Wanted::Key(Key::Reserved), 0, 7)]),
    (b"generate", &[(Wanted::Key(Key::Reserved), 0, 8)]),
    (b"endgenerate", &[(Wanted::Key(Key::Reserved), 0, 11)]),
    (b"genvar", &[(Wanted::Key(Key::Reserved), 0, 6)]),
    (b"case", &[(Wanted::Key(Key::Reserved), 0, 4)]),
    (b"casez", &[(Wanted::Key(Key::Reserved), 0, 5)]),
    (b"casex", &[(Wanted::Key(Key::Reserved), 0, 5)]),
    (b"endcase", &[(Wanted::Key(Key::Reserved), 0, 7)]),
    (b"default", &[(Wanted::Key(Key::Reserved), 0, 7)]),
    (b"for", &[(Wanted::Key(Key::Reserved), 0, 3)]),
    (b"while", &[(Wanted::Key(Key::Reserved), 0, 5)]),
    (b"repeat", &[(Wanted::Key(Key::Reserved), 0, 6)]),
    (b"forever", &[(Wanted::Key(Key::Reserved), 0, 7)]),
    (b"integer", &[(Wanted::Key(Key::Reserved), 0, 7)]),
    (b"real", &[(Wanted::Key(Key::Reserved), 0, 4)]),
    (b"time", &[(Wanted::Key(Key::Reserved), 0, 4)]),
    (b"signed", &[(Wanted::Key(Key::Reserved), 0, 6)]),
    (b"negedge", &[(Wanted::Key(Key::Reserved), 0, 7)]),
    (b"specify", &[(Wanted::Key(Key::Reserved), 0, 7)]),
    (b"endspecify", &[(Wanted::Key(Key::Reserved), 0, 10)]),
    (b"primitive", &[(Wanted::Key(Key::Reserved), 0, 9)]),
    (b"endprimitive", &[(Wanted::Key(Key::Reserved), 0, 12)]),
];

#[test]
fn marks_are_read(rt: HostRuntime) -> Result<(), Fail> {
    assert_eq!(rt; first_other(rt.alloc(), &MARKS)?, None);
    Ok(())
}

#[test]
fn marks_beside_marks_are_read(rt: HostRuntime) -> Result<(), Fail> {
    assert_eq!(rt; first_other(rt.alloc(), &MARKS_BESIDE_MARKS)?, None);
    Ok(())
}

#[test]
fn keywords_are_read(rt: HostRuntime) -> Result<(), Fail> {
    assert_eq!(rt; first_other(rt.alloc(), &KEYWORDS)?, None);
    Ok(())
}
