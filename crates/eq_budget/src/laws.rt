//! A law of the definitions. It is the contract of a function that does nothing, and is cited by calling it.

ghost use Rattle.eq_verilog.specs.Trees.{Name};
ghost use Rattle.eq_layout.specs.declared.layout.Layout.{Layout as LayoutValue};
ghost use Rattle.eq_layout.specs.Layout.{IsLaidOut};
ghost use Rattle.eq_layout.specs.Spending.{IsPaid};

/// The words of a design are paid for by its cost, with a node for each bit and two more. The proof stands in
/// proofs/Paid.antt.
pub fn words_are_paid()
    ensures { (l : LayoutValue) (top : Name) → IsLaidOut top l → IsPaid l top }
{}
