//! Laws of the definitions. Each is the contract of a function that does nothing.

ghost use Rattle.std.specs.Prelude.{◌≡◌, true, List, map};
ghost use Rattle.std.specs.List.{AllByRecursion};
ghost use Rattle.eq_vlex.specs.declared.token.Token.{Token};
ghost use Rattle.eq_vlex.specs.declared.token.TokenKind.{TokenKind};
ghost use Rattle.eq_vlex.specs.Tokens.{HasTokens};
ghost use Rattle.eq_vparse.specs.declared.tree.Source.{Source};
ghost use Rattle.eq_vparse.specs.Grammar.{HasTree};
ghost use Rattle.eq_vparse.specs.Layout.{Written, bytes_of, tokens_of, IsPrintable, IsLegible, spaced, all_follow};

/// A list of tokens has at most one tree, whatever the limits.
pub fn one_tree()
    ensures { (ts : List TokenKind) (s t : Source) → HasTree ts s → HasTree ts t → s ≡ t }
{}

/// The bytes of legible tokens have these tokens and no others.
pub fn legible_is_read()
    ensures { (ws : List Written) → IsLegible ws → (ts : List Token) × HasTokens (bytes_of ws) ts × (map (λ (t : Token). t.kind) ts ≡ tokens_of ws) }
{}

/// Tokens that may follow one another have these tokens and no others where a space stands between two words.
pub fn spaced_is_read()
    ensures { (ws : List Written) → AllByRecursion IsPrintable (tokens_of ws) → all_follow (tokens_of ws) ≡ true →
        (ts : List Token) × HasTokens (bytes_of (spaced ws)) ts × (map (λ (t : Token). t.kind) ts ≡ tokens_of ws) }
{}
