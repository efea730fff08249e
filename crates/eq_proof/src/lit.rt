//! Literals.
ghost use Rattle.std.specs.Prelude.{◌≡◌, ◌<◌, ◌^◌, not};
ghost use Rattle.eq_proof.specs.Literal.{Literal, negation};

use std::marker::Model;

/// A variable from 1 to 2^31 - 1 with a sign, in four bytes.
///
/// Literals are ordered by variable, the positive one first.
#[derive(Clone, Copy, Debug, PartialEq, Eq, PartialOrd, Ord)]
pub struct Lit {
    /// Twice the variable, and one more where the literal is negative.
    code: u32,
}

const _: () = prove!(size_of::<Lit>() == 4);

impl Model for Lit {
    ghost use Rattle.eq_proof.specs.Literal.{Literal};

    ghost Value = { Literal };

    ghost use Rattle.eq_proof.specs.Literal.{literal_of, code_of, code_of-literal_of};
    ghost use Rattle.std.specs.Prelude.{◌≤◌, ◌<◌, ◌^◌};
    ghost use Rattle.std.proofs.Common.{ap};

    ghost view = { λ l. literal_of l.code };

    ghost invariant = { λ l. (2 ≤ l.code) × (l.code < 2 ^ 32) };

    ghost inverse = { λ l. record { code = code_of l } };

    ghost inverse_ok = { λ l h. ap (λ n. record { code = n }) (code_of-literal_of l.code) };
}

impl Lit {
    pub fn new(var: u32, positive: bool) -> Lit
        requires from_one { 0 < var }
        requires fits { var < 2 ^ 31 }
        ensures var { result.var ≡ var }
        ensures positive { result.positive ≡ positive }
    {
        Lit {
            code: 2 * var + if positive { 0 } else { 1 },
        }
    }

    pub fn var(&self) -> u32
        ensures value { result ≡ self.now.var }
        ensures from_one { 0 < result }
        ensures fits { result < 2 ^ 31 }
    {
        self.code / 2
    }

    pub fn positive(&self) -> bool
        ensures { result ≡ self.now.positive }
    {
        self.code % 2 == 0
    }

    /// The literal of the same variable with the other sign.
    pub fn negation(&self) -> Lit
        ensures { result ≡ negation self.now }
    {
        Lit::new(self.var(), !self.positive())
    }
}
