//! Which words are names of nets and modules.

ghost use Rattle.std.specs.Prelude.{◌≡◌, bytes_eq};
ghost use Rattle.std.specs.List.{list_any};
ghost use Rattle.eq_first.specs.Reserved.{is_reserved as is_reserved_lem};

/// The keywords of the grammar, and the words that are reserved.
const RESERVED: [&[u8]; 54] = [
    b"module",
    b"endmodule",
    b"input",
    b"output",
    b"wire",
    b"reg",
    b"assign",
    b"always",
    b"initial",
    b"posedge",
    b"begin",
    b"end",
    b"if",
    b"else",
    b"and",
    b"nand",
    b"or",
    b"nor",
    b"xor",
    b"xnor",
    b"buf",
    b"not",
    b"inout",
    b"tri",
    b"supply0",
    b"supply1",
    b"parameter",
    b"localparam",
    b"defparam",
    b"function",
    b"endfunction",
    b"task",
    b"endtask",
    b"generate",
    b"endgenerate",
    b"genvar",
    b"case",
    b"casez",
    b"casex",
    b"endcase",
    b"default",
    b"for",
    b"while",
    b"repeat",
    b"forever",
    b"integer",
    b"real",
    b"time",
    b"signed",
    b"negedge",
    b"specify",
    b"endspecify",
    b"primitive",
    b"endprimitive",
];

fn is_among(words: &[&[u8]], word: &[u8]) -> bool
    ensures { result ≡ list_any (λ w. bytes_eq w.now word.now) words.now }
{
    words.iter().any(|among| *among == word)
}

/// Whether no name may be this word.
#[tactic(auto, unfolding(crate::specs::Reserved::is_reserved))]
pub(crate) fn is_reserved(word: &[u8]) -> bool
    ensures { result ≡ is_reserved_lem word.now }
{
    is_among(&RESERVED, word)
}
