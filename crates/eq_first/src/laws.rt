//! What follows from the definitions alone. Each law is the contract of a function that does nothing.

ghost use Rattle.std.specs.Prelude.{◌≡◌, ℕ, Bool, not, ◌&&◌, ◌||◌, List, [], ◌∷◌, ◌++◌, All};
ghost use Rattle.eq_first.specs.declared.module.Direction.{Direction};
ghost use Rattle.eq_first.specs.declared.module.Port.{Port as PortInfo};
ghost use Rattle.eq_first.specs.declared.module.Expr.{Expr as Tree};
ghost use Rattle.eq_first.specs.declared.module.Expr.TheVariants.{Port};
ghost use Rattle.eq_first.specs.declared.module.Expr.TheViews.{Not, And, Xor, Or};
ghost use Rattle.eq_first.specs.Value.{value, reads_of, differ};
ghost use Rattle.eq_first.specs.Well.{Goes, IsWellFormed};
ghost use Rattle.eq_first.specs.declared.job.Job.{Job as JobValue};
ghost use Rattle.eq_first.specs.declared.module.Module.{Module as ModuleValue};
ghost use Rattle.eq_first.specs.Configuration.{IsJob};
ghost use Rattle.eq_first.specs.Tokens.{Token, HasTokens};
ghost use Rattle.eq_first.specs.Design.{IsModule};

/// The value of an expression comes from the values of its operands.
pub fn values()
    ensures port { (n : ℕ) (v : ℕ → Bool) → value (Port n) v ≡ v n }
    ensures not { (a : Tree) (v : ℕ → Bool) → value (Not a) v ≡ not (value a v) }
    ensures and { (a b : Tree) (v : ℕ → Bool) → value (And a b) v ≡ (value a v && value b v) }
    ensures xor { (a b : Tree) (v : ℕ → Bool) → value (Xor a b) v ≡ differ (value a v) (value b v) }
    ensures or { (a b : Tree) (v : ℕ → Bool) → value (Or a b) v ≡ (value a v || value b v) }
{}

/// An expression names the ports that its operands name.
pub fn reads()
    ensures port { (n : ℕ) → reads_of (Port n) ≡ n ∷ [] }
    ensures not { (a : Tree) → reads_of (Not a) ≡ reads_of a }
    ensures and { (a b : Tree) → reads_of (And a b) ≡ reads_of a ++ reads_of b }
    ensures xor { (a b : Tree) → reads_of (Xor a b) ≡ reads_of a ++ reads_of b }
    ensures or { (a b : Tree) → reads_of (Or a b) ≡ reads_of a ++ reads_of b }
{}

/// Where an expression names only ports that go one way, so do its operands.
pub fn operands()
    ensures port { (ports : List PortInfo) (d : Direction) (n : ℕ) → All (Goes ports d) (reads_of (Port n)) → Goes ports d n }
    ensures not { (ports : List PortInfo) (d : Direction) (a : Tree) → All (Goes ports d) (reads_of (Not a)) → All (Goes ports d) (reads_of a) }
    ensures and { (ports : List PortInfo) (d : Direction) (a b : Tree) → All (Goes ports d) (reads_of (And a b)) → All (Goes ports d) (reads_of a) × All (Goes ports d) (reads_of b) }
    ensures xor { (ports : List PortInfo) (d : Direction) (a b : Tree) → All (Goes ports d) (reads_of (Xor a b)) → All (Goes ports d) (reads_of a) × All (Goes ports d) (reads_of b) }
    ensures or { (ports : List PortInfo) (d : Direction) (a b : Tree) → All (Goes ports d) (reads_of (Or a b)) → All (Goes ports d) (reads_of a) × All (Goes ports d) (reads_of b) }
{}

/// A text asks for at most one job.
pub fn one_job()
    ensures { (text : List ℕ) (a b : JobValue) → IsJob text a → IsJob text b → a ≡ b }
{}

/// A text is cut into tokens in at most one way.
pub fn one_lexing()
    ensures { (text : List ℕ) (a b : List Token) → HasTokens text a → HasTokens text b → a ≡ b }
{}

/// A text is the design of at most one module of a name.
pub fn one_module()
    ensures { (text top : List ℕ) (a b : ModuleValue) → IsModule text top a → IsModule text top b → a ≡ b }
{}

/// Each module has one output, and its expression is over inputs.
pub fn well_formed()
    ensures { (text top : List ℕ) (m : ModuleValue) → IsModule text top m → IsWellFormed m }
{}
