//! Laws of texts, each a function without a body whose contract is the law.
ghost use Rattle.eq_proof.specs.Dimacs as dimacs;
ghost use Rattle.eq_proof.specs.Lrat as lrat;

/// A text has one first line at most that isn't in the grammar of DIMACS.
pub fn one_bad_line_of_dimacs()
    ensures { dimacs.OneBadLine }
{}

/// A text has one first line at most that isn't in the grammar of LRAT.
pub fn one_bad_line_of_lrat()
    ensures { lrat.OneBadLine }
{}
