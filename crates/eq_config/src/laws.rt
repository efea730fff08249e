//! Laws of the definitions: a text has one configuration or one first fault, and never both.

ghost use Rattle.std.specs.Prelude.{◌≡◌, ℕ, List};
ghost use Rattle.eq_config.specs.declared.config.Config.{Config};
ghost use Rattle.eq_config.specs.declared.fault.ConfigKind.{ConfigKind};
ghost use Rattle.eq_config.specs.Configs.{HasConfig, HasFault};

/// A text has at most one configuration (proofs/Uniqueness.antt).
pub fn one_configuration()
    ensures { (text : List ℕ) (c d : Config) → HasConfig text c → HasConfig text d → c ≡ d }
{}

/// A text has at most one first fault (proofs/Uniqueness.antt).
pub fn one_first_fault()
    ensures { (text : List ℕ) (l m : ℕ) (j k : ConfigKind) → HasFault text l j →
        HasFault text m k → (l ≡ m) × (j ≡ k) }
{}

/// A text with a configuration has no fault (proofs/Uniqueness.antt).
pub fn never_both()
    ensures { (text : List ℕ) (c : Config) (line : ℕ) (kind : ConfigKind) → HasConfig text c →
        ¬ HasFault text line kind }
{}
