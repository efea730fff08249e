//! Laws of the definitions: each text has one list of tokens or one first fault, and never both.

ghost use Rattle.std.specs.Prelude.{◌≡◌, ◌-◌, ◌⊎◌, ℕ, List, Some, drop};
ghost use Rattle.std.specs.List.{AllByRecursion};
ghost use Rattle.eq_vlex.specs.declared.fault.LexKind.{LexKind};
ghost use Rattle.eq_vlex.specs.declared.mark.Mark.{Mark};
ghost use Rattle.eq_vlex.specs.declared.token.Token.{Token};
ghost use Rattle.eq_vlex.specs.Bytes.{begins};
ghost use Rattle.eq_vlex.specs.Marks.{mark_at, IsLongest};
ghost use Rattle.eq_vlex.specs.Pieces.{IsLexeme};
ghost use Rattle.eq_vlex.specs.Tokens.{HasTokens, HasFault};

/// A text has at most one list of tokens.
pub fn at_most_one_list()
    ensures { (text : List ℕ) (ts us : List Token) → HasTokens text ts → HasTokens text us → ts ≡ us }
{}

/// A text has at most one first fault.
pub fn at_most_one_fault()
    ensures { (text : List ℕ) (i j : ℕ) (f g : LexKind) → HasFault text i f → HasFault text j g → (i ≡ j) × (f ≡ g) }
{}

/// A text with tokens has no fault.
pub fn never_both()
    ensures { (text : List ℕ) (ts : List Token) (at : ℕ) (f : LexKind) → HasTokens text ts → ¬ HasFault text at f }
{}

/// Each text has tokens or a fault.
pub fn always_one()
    ensures { (text : List ℕ) → ((ts : List Token) × HasTokens text ts) ⊎ ((at : ℕ) × (f : LexKind) × HasFault text at f) }
{}

/// Each token stands where its span says, and has as many bytes.
pub fn spans_are_tokens()
    ensures { (text : List ℕ) (ts : List Token) → HasTokens text ts →
        AllByRecursion (λ t. IsLexeme (begins (drop t.start text)) (drop t.start text) (t.end - t.start) t.kind) ts }
{}

/// No mark that a text begins with is longer than the one that is read.
pub fn longest_mark()
    ensures { (text : List ℕ) (m : Mark) (len : ℕ) → mark_at text ≡ Some (m, len) → IsLongest text len }
{}
