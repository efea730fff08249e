//! Laws of the definitions: each text is read in one way or has one first fault, and a name has one list of captures.

ghost use Rattle.std.specs.Prelude.{◌≡◌, ◌⊎◌, ℕ, List};
ghost use Rattle.eq_names.specs.declared.fault.PatErr.{PatErr};
ghost use Rattle.eq_names.specs.declared.fault.TplErr.{TplErr};
ghost use Rattle.eq_names.specs.declared.part.Part.{Part};
ghost use Rattle.eq_names.specs.declared.piece.Piece.{Piece};
ghost use Rattle.eq_names.specs.declared.span.Span.{Span};
ghost use Rattle.eq_names.specs.Reading.{ArePiecesOf};
ghost use Rattle.eq_names.specs.Patterns.{piece_at, IsPattern, HasPatternFault, Matches, AreCaptures, HasWilds};
ghost use Rattle.eq_names.specs.Templates.{part_at, IsTemplate, HasTemplateFault, IsFilled};

/// A text is that of one list of pieces at most (proofs/Wholes.antt).
pub fn one_pattern()
    ensures { (text : List ℕ) (ps qs : List Piece) → ArePiecesOf piece_at text ps →
        ArePiecesOf piece_at text qs → ps ≡ qs }
{}

/// Each text is a pattern or has a fault (proofs/Moving.antt).
pub fn pattern_or_fault()
    ensures { (text : List ℕ) → IsPattern text ⊎ ((fault : PatErr) × HasPatternFault text fault) }
{}

/// No text is a pattern and has a fault (proofs/Answered.antt).
pub fn no_faulty_pattern()
    ensures { (text : List ℕ) (fault : PatErr) → IsPattern text → ¬ HasPatternFault text fault }
{}

/// A text has one first fault at most, read as a pattern (proofs/Answered.antt).
pub fn one_pattern_fault()
    ensures { (text : List ℕ) (f g : PatErr) → HasPatternFault text f → HasPatternFault text g →
        f ≡ g }
{}

/// A name has one list of captures at most (proofs/CaptureLemmas.antt).
pub fn one_capture()
    ensures { (pattern name : List ℕ) (s t : List Span) → AreCaptures pattern name s →
        AreCaptures pattern name t → s ≡ t }
{}

/// A name with captures matches (proofs/CaptureLemmas.antt).
pub fn captured_matches()
    ensures { (pattern name : List ℕ) (s : List Span) → AreCaptures pattern name s →
        Matches pattern name }
{}

/// A pattern has one number of wilds (proofs/CaptureLemmas.antt).
pub fn one_number_of_wilds()
    ensures { (pattern : List ℕ) (m n : ℕ) → HasWilds pattern m → HasWilds pattern n → m ≡ n }
{}

/// A text is that of one list of parts at most, whatever the wilds are (proofs/PartLemmas.antt).
pub fn one_template()
    ensures { (text : List ℕ) (v w : ℕ) (ps qs : List Part) → ArePiecesOf (part_at v) text ps →
        ArePiecesOf (part_at w) text qs → ps ≡ qs }
{}

/// Each text is a template or has a fault (proofs/Moving.antt).
pub fn template_or_fault()
    ensures { (text : List ℕ) (wilds : ℕ) →
        IsTemplate text wilds ⊎ ((fault : TplErr) × HasTemplateFault text wilds fault) }
{}

/// No text is a template and has a fault (proofs/PartLemmas.antt).
pub fn no_faulty_template()
    ensures { (text : List ℕ) (wilds : ℕ) (fault : TplErr) → IsTemplate text wilds →
        ¬ HasTemplateFault text wilds fault }
{}

/// A text has one first fault at most, read as a template (proofs/PartLemmas.antt).
pub fn one_template_fault()
    ensures { (text : List ℕ) (wilds : ℕ) (f g : TplErr) → HasTemplateFault text wilds f →
        HasTemplateFault text wilds g → f ≡ g }
{}

/// A template is filled in one way at most (proofs/Moving.antt).
pub fn one_filling()
    ensures { (template name : List ℕ) (spans : List Span) (s t : List ℕ) →
        IsFilled template name spans s → IsFilled template name spans t → s ≡ t }
{}
