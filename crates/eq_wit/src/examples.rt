//! What the definitions say of texts that are written out. The checker computes each.

ghost use Rattle.std.specs.Prelude.{◌≡◌, [], ◌∷◌, ◌++◌, ℕ, codes, false, true};
ghost use Rattle.eq_bits.specs.declared.node.Node.TheVariants.{And, Const, Mux, Not, Reg};
ghost use Rattle.eq_bits.specs.declared.part.Part.{Part};
ghost use Rattle.eq_induct.specs.declared.types.Answer.TheVariants.{Spent};
ghost use Rattle.eq_induct.specs.declared.types.End.TheVariants as end;
ghost use Rattle.eq_proof.specs.Inference.{Inference};
ghost use Rattle.eq_wit.specs.Line.{HasForm, line_text, spaced_fields};
ghost use Rattle.eq_wit.specs.Samples.{IsAndBesideOr, one_failure, one_head, one_step};
ghost use Rattle.eq_wit.specs.Texts.{answer_fields, end_line, evidence_text, frame_line, node_line, regs_line, step_fields};

/// The evidence of a pair that fails at one cycle.
pub fn failing_pair()
    ensures { (part : Part) → IsAndBesideOr part → evidence_text part one_head one_failure ≡
        codes "eqe 1\npart y\ninputs 2\na\nb\nnodes 9\ninput 0\ninput 1\nand 0 1\nbuf 2\n" ++
        (codes "not 0\nnot 1\nand 4 5\nnot 6\nbuf 7\noutputs 1\ny 3 8\nattempts 1\n" ++
        codes "attempt s 3 20000 1\nbase 1 sat\nregs -\nin 01\nfail 1\nverdict fail\nend\n") }
{}

/// Lines of nodes, of values and of a step.
pub fn single_lines()
    ensures constant { line_text (node_line (Const true)) ≡ codes "const 1\n" }
    ensures gate { line_text (node_line (Mux 4 2 10)) ≡ codes "mux 4 2 10\n" }
    ensures register { line_text (node_line (Reg 7 false)) ≡ codes "reg 7 0\n" }
    ensures values { line_text (regs_line (true ∷ false ∷ [])) ≡ codes "regs 10\n" }
    ensures no_value { line_text (frame_line []) ≡ codes "in -\n" }
    ensures undecided { spaced_fields (answer_fields (Spent (one_step ∷ []))) ≡ codes " spent 1" }
    ensures ends { (line_text (end_line end.Spent) ≡ codes "spent\n") ×
        (line_text (end_line end.Deep) ≡ codes "deep\n") ×
        (line_text (end_line (end.Proved 12)) ≡ codes "proved 12\n") }
    ensures step { line_text (step_fields 12 one_step) ≡ codes "12 -1 3 0 4 5 0\n" }
{}

/// Which words have the form of a line: where they have, a number is wrong, and else a word. A deletion of LRAT has the form
/// of no step.
pub fn forms_of_lines()
    ensures wrong_number { HasForm (node_line (And 0 1))
        (codes "and" ∷ codes "7" ∷ codes "x" ∷ []) }
    ensures wrong_word { HasForm (node_line (And 0 1))
        (codes "or" ∷ codes "0" ∷ codes "1" ∷ []) → ⊥ }
    ensures missing { HasForm (node_line (And 0 1)) (codes "and" ∷ codes "0" ∷ []) → ⊥ }
    ensures further { HasForm (node_line (Not 0))
        (codes "not" ∷ codes "0" ∷ codes "1" ∷ []) → ⊥ }
    ensures deletion { (n : ℕ) (step : Inference) → HasForm (step_fields n step)
        (codes "5" ∷ codes "d" ∷ codes "1" ∷ codes "0" ∷ []) → ⊥ }
    ensures no_end { (n : ℕ) (step : Inference) → HasForm (step_fields n step)
        (codes "5" ∷ codes "0" ∷ codes "1" ∷ []) → ⊥ }
{}
