//! Laws of rows and reports.

ghost use Rattle.std.specs.Prelude.{◌≡◌, ◌↔◌, ◌+◌, [], ◌∷◌, ◌++◌, List, All, Any, length};
ghost use Rattle.eq_compose.specs.declared.types.Row.{Row};
ghost use Rattle.eq_compose.specs.declared.types.Whole.{Whole};
ghost use Rattle.eq_compose.specs.declared.types.Whole.TheVariants.{Fail, Pass};
ghost use Rattle.eq_compose.specs.Rows.{SaysFail, SaysProved};
ghost use Rattle.eq_config.specs.declared.config.Strategy.{Strategy};
ghost use Rattle.eq_part.specs.declared.types.Partition.{Partition};
ghost use Rattle.eq_report.specs.declared.status.Status.{Status};
ghost use Rattle.eq_report.specs.Closing.{closing_lines, counts_of, status_number, whole_of};
ghost use Rattle.eq_report.specs.Reports.{report, row_lines};
ghost use Rattle.eq_report.specs.Rows.{row_line};

/// All rows together pass exactly where each says proved, also where there is none, and fail exactly where one says
/// fail. Nothing else does so. Proved in `proofs/Together.antt`.
pub fn rows_say_one_whole()
    ensures pass { (rows : List Row) → (whole_of rows ≡ Pass) ↔ All SaysProved rows }
    ensures fail { (rows : List Row) → (whole_of rows ≡ Fail) ↔ Any SaysFail rows }
    ensures one { (rows : List Row) (whole : Whole) → ((whole ≡ Pass) ↔ All SaysProved rows) →
        ((whole ≡ Fail) ↔ Any SaysFail rows) → whole ≡ whole_of rows }
{}

/// A report begins with the lines of any first rows, one after another.
pub fn rows_are_told_in_order()
    ensures none { (strategies : List Strategy) (parts : List Partition) →
        row_lines strategies parts [] ≡ [] }
    ensures next { (strategies : List Strategy) (parts : List Partition)
        (first : List Row) (row : Row) →
        row_lines strategies parts (first ++ row ∷ []) ≡
        row_lines strategies parts first ++ row_line strategies parts row }
    ensures joined { (strategies : List Strategy) (parts : List Partition)
        (first further : List Row) →
        row_lines strategies parts (first ++ further) ≡
        row_lines strategies parts first ++ row_lines strategies parts further }
    ensures front { (strategies : List Strategy) (parts : List Partition)
        (first further : List Row) →
        report strategies parts (first ++ further) ≡ row_lines strategies parts first ++
        (row_lines strategies parts further ++
        closing_lines (counts_of (first ++ further)) (whole_of (first ++ further))) }
{}

/// Each row is counted once. Proved in `proofs/Counted.antt`.
pub fn each_row_is_counted()
    ensures { (rows : List Row) → (counts_of rows).proved + (counts_of rows).failed
        + (counts_of rows).unknown + (counts_of rows).skipped ≡ length rows }
{}

/// No two statuses have one number. Proved in `proofs/Numbers.antt`.
pub fn a_number_is_of_one_status()
    ensures { (a b : Status) → status_number a ≡ status_number b → a ≡ b }
{}
