//! Laws of the definitions that the contracts cite. Each function does nothing: its contract is the law.
ghost use Rattle.eq_io.specs.Files.{AnswersExactly, ChangesOnlyTheName};

/// Of the files that a store tells, a read has exactly one answer.
pub fn answers_exactly()
    ensures { AnswersExactly }
{}

/// What a failed write may leave: anything or nothing under its name, and all other names as they were.
pub fn changes_only_the_name()
    ensures { ChangesOnlyTheName }
{}
