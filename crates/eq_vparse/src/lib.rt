//! The tree of a Verilog text: read from its tokens by the grammar, and printed.
//!
//! Each reader of a rule is a method of the cursor, or a function on one, with one contract: it answers what a
//! definition on lists gives, and leaves the cursor where that leaves off (`Reads`). In the order of the data:
//!
//! - `tree`: the types of the tree. `stop`: why tokens have none. `depth`: the limits.
//! - `cursor`: a place in the list of tokens; contracts see the tokens that are left.
//! - `machine`, `pending`: what the reading of an expression keeps: a stack of what waits for an operand.
//! - `operator`: which marks write operators, and how strongly they bind.
//! - `operand`, `follow`: what may stand where an operand is wanted (`begin_at`), and behind one (`follow_at`).
//! - `expr`: expressions (`expr_at`), and where one stops (`StopsExpr`).
//! - `target`: targets, by a stack of the open braces. `statement`: statements, by recursion on the levels.
//! - `declaration`, `connection`: the entries of declarations, gates and instances.
//! - `header`, `item`, `source`: the header of a module, its items, and whole sources (`source_at`).
//! - `parser`: `parse`, which answers the one tree within limits exactly where there is one (`HasTreeWithin`).
//! - `shape`, `spelling`: which form an operand has; the bytes of words, marks and numbers.
//! - `text`: a text as it is written token by token, with a space between two words.
//! - `print_expression`, `print_target`, `print_statement`, `print_item`, `print`: `print_source` writes its text
//!   (`written`), which is read back as the same tree (`IsTextOf`).
//! - `laws`: a list of tokens has one tree at most; what is written legibly is read as these tokens.
#![tactic(auto)]

mod connection;
mod cursor;
mod declaration;
mod depth;
mod expr;
mod follow;
mod header;
mod item;
pub mod laws;
mod machine;
mod operand;
mod operator;
mod parser;
mod pending;
mod print;
mod print_expression;
mod print_item;
mod print_statement;
mod print_target;
mod shape;
mod source;
mod spelling;
mod statement;
mod stop;
mod target;
mod text;
mod tree;

pub use parser::parse;
pub use print::print_source;
pub use stop::ParseErr;
pub use tree::{
    BinOp, Conns, DeclKind, Expr, Exprs, GateKind, Item, MaybeExprs, Module, ModuleItems, Modules,
    Named, Nameds, Names, Range, Source, Stmt, Stmts, Target, Targets, UnOp,
};
