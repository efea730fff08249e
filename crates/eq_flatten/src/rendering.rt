//! What the words of a netlist say, once they stand: laws of the definitions that the words' contracts cite.

ghost use Rattle.std.specs.Prelude.{◌≡◌, ◌<◌, ℕ, List, length};
ghost use Rattle.eq_model.specs.System.{Values};
ghost use Rattle.eq_net.specs.declared.types.NetInfo.{NetInfo};
ghost use Rattle.eq_net.specs.Tree.{Tree};
ghost use Rattle.eq_net.specs.Meaning.{all_copies_of, all_reads_of, values_of};
ghost use Rattle.eq_net.specs.Net.{AreWords, number_of, word_at};
ghost use Rattle.eq_verilog.specs.Trees.{ExprTree};
ghost use Rattle.eq_verilog.specs.Scopes.{Scope};
ghost use Rattle.eq_verilog.specs.Expressions.{reads, value, wire};
ghost use Rattle.eq_flatten.specs.Rendering.{Makes, Renders, SameNames};

/// A word of a netlist that is an expression has in the netlist, at each position, the expression's value, reads and plain
/// copy. The proof stands in proofs/Reflected.antt.
pub fn words_render()
    ensures values { (nets : List NetInfo) (words : List Tree) (s : Scope) (e : ExprTree) (w k : ℕ) →
        AreWords nets words → k < length words → Renders nets words s e w (word_at words k) →
        (v : Values) (j : ℕ) → values_of v (number_of nets) words k j ≡ value s v e w j }
    ensures reads { (nets : List NetInfo) (words : List Tree) (s : Scope) (e : ExprTree) (w k : ℕ) →
        AreWords nets words → k < length words → Renders nets words s e w (word_at words k) →
        (j : ℕ) → all_reads_of (number_of nets) words k j ≡ reads s e w j }
    ensures copies { (nets : List NetInfo) (words : List Tree) (s : Scope) (e : ExprTree) (w k : ℕ) →
        AreWords nets words → k < length words → Renders nets words s e w (word_at words k) →
        (j : ℕ) → all_copies_of (number_of nets) words k j ≡ wire s e j }
{}

/// What is made of an expression in one scope is made of it in each that says the same of its names. The proof stands in
/// proofs/Agreeing.antt.
pub fn scopes_agree()
    ensures { (s r : Scope) (nets : List NetInfo) (e : ExprTree) (w : ℕ) (old new : List Tree)
        (t : Tree) → SameNames s r e → Makes nets s e w old new t → Makes nets r e w old new t }
{}
