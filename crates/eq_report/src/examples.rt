//! Lines that are written out. The checker computes each.

ghost use Rattle.std.specs.Prelude.{◌≡◌, [], ◌∷◌, ◌++◌, codes};
ghost use Rattle.eq_config.specs.declared.fault.ConfigKind.TheVariants as config;
ghost use Rattle.eq_vlex.specs.declared.fault.LexKind.TheVariants as lex;
ghost use Rattle.eq_verilog.specs.declared.refusal.ElabKind.TheVariants as elab;
ghost use Rattle.eq_induct.specs.declared.types.End.TheVariants as end;
ghost use Rattle.eq_induct.specs.declared.types.PartVerdict.TheVariants as decided;
ghost use Rattle.eq_compose.specs.declared.types.Cause.TheVariants.{Conflicts, Depth};
ghost use Rattle.eq_compose.specs.declared.types.Verdict.TheVariants.{Fail, Proved, Skipped, Unknown};
ghost use Rattle.eq_report.specs.declared.refusal.DesignFault.TheVariants as design;
ghost use Rattle.eq_report.specs.declared.refusal.PlanFault.TheVariants as plan;
ghost use Rattle.eq_report.specs.declared.refusal.PortFault.TheVariants as port;
ghost use Rattle.eq_report.specs.declared.refusal.Refusal.TheVariants as refusal;
ghost use Rattle.eq_report.specs.declared.refusal.TextFault.TheVariants as text;
ghost use Rattle.eq_report.specs.declared.refusal.Which.TheVariants.{Gate, Gold};
ghost use Rattle.eq_report.specs.Refusals.{refusal_line};
ghost use Rattle.eq_report.specs.Reports.{report};
ghost use Rattle.eq_report.specs.Rows.{row_of};
ghost use Rattle.eq_report.specs.Samples.{came_to, ended_try, fresh_row, kept_row, one_strategy, two_strategies, y_alone, y_and_n};

/// Lines of refusals that name a file.
pub fn files_refused()
    ensures words { refusal_line refusal.Words ≡ codes
        "eqy: usage: eqy [-j N] [-d DIR] [-r] [-x] [--json NAME] FILE | eqy gen SEED SIZE\n" }
    ensures absent { refusal_line (refusal.Absent (codes "gate.v")) ≡
        codes "eqy: gate.v: no such file\n" }
    ensures too_long { refusal_line (refusal.TooLong (codes "gate.v")) ≡
        codes "eqy: gate.v: longer than 67108864 bytes\n" }
    ensures section { refusal_line (refusal.Text (codes "job.eqy") 1
        (text.Config config.UnknownSection)) ≡ codes "eqy: job.eqy:1: UnknownSection\n" }
    ensures missing { refusal_line (refusal.Text (codes "job.eqy") 7 (text.Config config.Missing)) ≡
        codes "eqy: job.eqy:7: Missing\n" }
    ensures x_value { refusal_line (refusal.Text (codes "gold.v") 3 (text.Lex lex.XValue)) ≡
        codes "eqy: gold.v:3: XValue\n" }
    ensures syntax { refusal_line (refusal.Text (codes "gate.v") 1 text.Syntax) ≡
        codes "eqy: gate.v:1: Syntax\n" }
{}

/// Lines of refusals of designs, and of what is made of both.
pub fn designs_refused()
    ensures no_init { refusal_line (refusal.Elaboration Gold (design.At elab.NoInit (codes "q"))) ≡
        codes "eqy: gold: NoInit q\n" }
    ensures no_top { refusal_line (refusal.Elaboration Gate (design.At elab.NoTop (codes "t"))) ≡
        codes "eqy: gate: NoTop t\n" }
    ensures looped { refusal_line (refusal.Elaboration Gold (design.Loop (codes "c[0]"))) ≡
        codes "eqy: gold: Loop c[0]\n" }
    ensures width { refusal_line (refusal.Ports port.Width (codes "y")) ≡
        codes "eqy: ports: Width y\n" }
    ensures missing { refusal_line (refusal.Ports port.Missing (codes "b")) ≡
        codes "eqy: ports: Missing b\n" }
    ensures same_name { refusal_line (refusal.Plan
        (plan.SameName (codes "cnt_q[0]") (codes "cnt_q[1]"))) ≡
        codes "eqy: plan: SameName cnt_q[0] cnt_q[1]\n" }
    ensures too_many { refusal_line (refusal.Plan (plan.TooMany 4097)) ≡
        codes "eqy: plan: TooMany 4097\n" }
    ensures size { refusal_line (refusal.Size 2000001) ≡ codes "eqy: size: TooLarge 2000001\n" }
{}

/// Whole reports of one partition, and of none.
pub fn single_reports()
    ensures proved { report one_strategy y_alone (fresh_row 0 (Proved 1 0) 7 ∷ []) ≡
        codes "y: PROVED 1 by s\n" ++
        codes "proved 1, failed 0, unknown 0, skipped 0, conflicts 7\nPASS\n" }
    ensures fail { report one_strategy y_alone (fresh_row 0 (Fail 1 0) 0 ∷ []) ≡
        codes "y: FAIL 1 by s\n" ++
        codes "proved 0, failed 1, unknown 0, skipped 0, conflicts 0\nFAIL\n" }
    ensures deep { report one_strategy y_alone (fresh_row 0 (Unknown (Depth 0 5 ∷ [])) 0 ∷ []) ≡
        codes "y: UNKNOWN s depth 5\n" ++
        codes "proved 0, failed 0, unknown 1, skipped 0, conflicts 0\nUNKNOWN\n" }
    ensures spent { report two_strategies y_alone
        (fresh_row 0 (Unknown (Conflicts 0 1 ∷ [])) 1 ∷ []) ≡
        codes "y: UNKNOWN s conflicts 1\n" ++
        codes "proved 0, failed 0, unknown 1, skipped 0, conflicts 1\nUNKNOWN\n" }
    ensures second { report two_strategies y_alone (fresh_row 0 (Proved 1 1) 32 ∷ []) ≡
        codes "y: PROVED 1 by t\n" ++
        codes "proved 1, failed 0, unknown 0, skipped 0, conflicts 32\nPASS\n" }
    ensures no_strategy { report one_strategy y_alone (fresh_row 0 (Unknown []) 0 ∷ []) ≡
        codes "y: UNKNOWN no strategy applies\n" ++
        codes "proved 0, failed 0, unknown 1, skipped 0, conflicts 0\nUNKNOWN\n" }
    ensures no_row { report one_strategy [] [] ≡
        codes "proved 0, failed 0, unknown 0, skipped 0, conflicts 0\nPASS\n" }
{}

/// Reports of two partitions, and of two strategies that gave up.
pub fn double_reports()
    ensures one_fails { report one_strategy y_and_n
        (fresh_row 0 (Fail 1 0) 2 ∷ fresh_row 1 (Proved 1 0) 3 ∷ []) ≡
        codes "y: FAIL 1 by s\nn: PROVED 1 by s\n" ++
        codes "proved 1, failed 1, unknown 0, skipped 0, conflicts 5\nFAIL\n" }
    ensures skipped { report one_strategy y_and_n
        (fresh_row 0 (Fail 1 0) 2 ∷ fresh_row 1 Skipped 0 ∷ []) ≡
        codes "y: FAIL 1 by s\nn: SKIPPED\n" ++
        codes "proved 0, failed 1, unknown 0, skipped 1, conflicts 2\nFAIL\n" }
    ensures kept { report one_strategy y_and_n
        (kept_row 0 (Proved 1 0) 2 ∷ fresh_row 1 (Proved 1 0) 2 ∷ []) ≡
        codes "y: PROVED 1 by s, kept\nn: PROVED 1 by s\n" ++
        codes "proved 2, failed 0, unknown 0, skipped 0, conflicts 4\nPASS\n" }
    ensures both_causes { report two_strategies y_alone
        (fresh_row 0 (Unknown (Conflicts 0 1 ∷ Depth 1 3 ∷ [])) 9 ∷ []) ≡
        codes "y: UNKNOWN s conflicts 1; t depth 3\n" ++
        codes "proved 0, failed 0, unknown 1, skipped 0, conflicts 9\nUNKNOWN\n" }
{}

/// Rows of what strategies came to: where one decides, the one before it leaves no cause.
pub fn rows_of_partitions()
    ensures decided { row_of two_strategies 4
        (came_to (ended_try 0 end.Spent ∷ ended_try 1 (end.Proved 2) ∷ [])
        (decided.Proved 2 1) 12) ≡ fresh_row 4 (Proved 2 1) 12 }
    ensures undecided { row_of two_strategies 4
        (came_to (ended_try 0 end.Spent ∷ ended_try 1 end.Deep ∷ []) decided.Unknown 12) ≡
        fresh_row 4 (Unknown (Conflicts 0 1 ∷ Depth 1 3 ∷ [])) 12 }
    ensures untried { row_of two_strategies 4 (came_to [] decided.Unknown 0) ≡
        fresh_row 4 (Unknown []) 0 }
{}
