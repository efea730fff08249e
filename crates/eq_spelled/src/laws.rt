//! What is read of texts is spelled. Each law is the contract of a function that does nothing.

ghost use Rattle.std.specs.Prelude.{ℕ, All, List, map};
ghost use Rattle.eq_vlex.specs.declared.token.Token.{Token};
ghost use Rattle.eq_vlex.specs.Tokens.{HasTokens};
ghost use Rattle.eq_vparse.specs.declared.tree.Source.{Source};
ghost use Rattle.eq_vparse.specs.Grammar.{HasTreeWithin};
ghost use Rattle.eq_vparse.specs.Limits.{Limits};
ghost use Rattle.eq_vparse.specs.Reading.{kinds};
ghost use Rattle.eq_verilog.specs.Trees.{module_tree, modules_of};
ghost use Rattle.eq_flatten.specs.Spelled.{IsModuleSpelled};
ghost use Rattle.eq_spelled.specs.Spelling.{IsFromText};

/// What a text is read as is spelled: no constant of an expression is too large, and targets are names,
/// selects or joined. The proof stands in proofs/Sources.antt.
pub fn texts_are_spelled()
    ensures { (text : List ℕ) (tokens : List Token) (l : Limits) (s : Source) →
        HasTokens text tokens → HasTreeWithin l (kinds tokens) s →
        All IsModuleSpelled (map module_tree s.modules) }
{}

/// The same of several texts. The proof stands in proofs/Sources.antt.
pub fn sources_are_spelled()
    ensures { (sources : List Source) → All IsFromText sources →
        All IsModuleSpelled (modules_of sources) }
{}
