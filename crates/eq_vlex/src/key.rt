//! The keywords of Verilog.

ghost use Rattle.std.specs.Prelude.{◌≡◌, map};
ghost use Rattle.eq_vlex.specs.Words as spec;

/// A word that is no name.
#[derive(Clone, Copy, Debug, PartialEq, Eq)]
pub enum Key {
    Module,
    Endmodule,
    Input,
    Output,
    Wire,
    Reg,
    Assign,
    Always,
    Initial,
    Posedge,
    Begin,
    End,
    If,
    Else,
    And,
    Nand,
    Or,
    Nor,
    Xor,
    Xnor,
    Buf,
    Not,
    /// A keyword that no sentence of the profile has, as `inout`.
    Reserved,
}

/// Each keyword's bytes.
const KEYWORDS: [(&[u8], Key); 54] = [
    (b"module", Key::Module),
    (b"endmodule", Key::Endmodule),
    (b"input", Key::Input),
    (b"output", Key::Output),
    (b"wire", Key::Wire),
    (b"reg", Key::Reg),
    (b"assign", Key::Assign),
    (b"always", Key::Always),
    (b"initial", Key::Initial),
    (b"posedge", Key::Posedge),
    (b"begin", Key::Begin),
    (b"end", Key::End),
    (b"if", Key::If),
    (b"else", Key::Else),
    (b"and", Key::And),
    (b"nand", Key::Nand),
    (b"or", Key::Or),
    (b"nor", Key::Nor),
    (b"xor", Key::Xor),
    (b"xnor", Key::Xnor),
    (b"buf", Key::Buf),
    (b"not", Key::Not),
    (b"inout", Key::Reserved),
    (b"tri", Key::Reserved),
    (b"supply0", Key::Reserved),
    (b"supply1", Key::Reserved),
    (b"parameter", Key::Reserved),
    (b"localparam", Key::Reserved),
    (b"defparam", Key::Reserved),
    (b"function", Key::Reserved),
    (b"endfunction", Key::Reserved),
    (b"task", Key::Reserved),
    (b"endtask", Key::Reserved),
    (b"generate", Key::Reserved),
    (b"endgenerate", Key::Reserved),
    (b"genvar", Key::Reserved),
    (b"case", Key::Reserved),
    (b"casez", Key::Reserved),
    (b"casex", Key::Reserved),
    (b"endcase", Key::Reserved),
    (b"default", Key::Reserved),
    (b"for", Key::Reserved),
    (b"while", Key::Reserved),
    (b"repeat", Key::Reserved),
    (b"forever", Key::Reserved),
    (b"integer", Key::Reserved),
    (b"real", Key::Reserved),
    (b"time", Key::Reserved),
    (b"signed", Key::Reserved),
    (b"negedge", Key::Reserved),
    (b"specify", Key::Reserved),
    (b"endspecify", Key::Reserved),
    (b"primitive", Key::Reserved),
    (b"endprimitive", Key::Reserved),
];

/// What stands beside a word in a table.
fn looked_up(mut table: &[(&[u8], Key)], word: &[u8]) -> Option<Key>
    ensures { result ≡ spec.looked_up (map (λ row. (row.0.now, row.1)) table.entry.now) word.now }
{
    while let [row, rest @ ..] = table {
        if row.0 == word {
            return Some(row.1);
        }
        table = rest;
    }
    None
}

/// The key of a word, if it is a keyword.
pub fn key_of(word: &[u8]) -> Option<Key>
    ensures { result ≡ spec.key_of word.now }
{
    looked_up(&KEYWORDS, word)
}
