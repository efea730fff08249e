//! Laws of the definitions. Each is the contract of a function that does nothing, and is cited by calling it.

ghost use Rattle.std.specs.Prelude.{◌≡◌, ◌<◌, ◌+◌, ◌++◌, ◌∷◌, true, ℕ, List, length, map, is_some, slice_get, Some, None};
ghost use Rattle.eq_model.specs.Nets.{range_width, total_width};
ghost use Rattle.eq_names.specs.Tables.{number_of};
ghost use Rattle.eq_vlex.specs.declared.token.Constant.{Constant};
ghost use Rattle.eq_vparse.specs.declared.tree.UnOp.{UnOp};
ghost use Rattle.eq_vparse.specs.declared.tree.BinOp.{BinOp};
ghost use Rattle.eq_vparse.specs.declared.tree.Expr.{Expr};
ghost use Rattle.eq_vparse.specs.declared.tree.Expr.TheVariants.{Const, Net, Bit, Part};
ghost use Rattle.eq_vparse.specs.declared.tree.Expr.TheViews.{Concat, Repeat, Unary, Binary, Cond};
ghost use Rattle.eq_vparse.specs.declared.tree.Target.{Target};
ghost use Rattle.eq_vparse.specs.declared.tree.Target.TheVariants as target;
ghost use Rattle.eq_vparse.specs.declared.tree.Target.TheViews as targets;
ghost use Rattle.eq_vparse.specs.declared.tree.Stmt.{Stmt};
ghost use Rattle.eq_vparse.specs.declared.tree.Stmt.TheVariants.{Empty, Set};
ghost use Rattle.eq_vparse.specs.declared.tree.Stmt.TheViews.{Block, If};
ghost use Rattle.eq_net.specs.Meaning.{if_there};
ghost use Rattle.eq_verilog.specs.Trees.{Name, Range, ModuleTree, const, net, bit, part, repeated, unary, binary, choice, join_all, expr_tree, target_tree, idle, set, branch, in_sequence, stmt_tree};
ghost use Rattle.eq_verilog.specs.Scopes.{index_at, is_inside, position};
ghost use Rattle.eq_verilog.specs.Declarations.{has, nets_in};
ghost use Rattle.eq_verilog.specs.Hierarchy.{Path, module_named, module_names};
ghost use Rattle.eq_verilog.specs.Nets.{alone, full_names, nets_at, nets_of, offset};
ghost use Rattle.eq_verilog.specs.Costs.{cost_below, design_cost};
ghost use Rattle.eq_verilog.specs.Firsts.{first_again};
ghost use Rattle.eq_verilog.specs.Depending.{DriverDepends};
ghost use Rattle.eq_verilog.specs.Designs.{Flat, driver_of};
ghost use Rattle.eq_verilog.specs.Refusals.{Refusal, IsRefusedFor, IsAccepted};

use eq_net::laws::operators_follow_reads;

/// The tree of an expression, form by form. The proof stands in proofs/PureTrees.antt.
pub fn expression_trees()
    ensures constant { (c : Constant) → expr_tree (Const c) ≡ const c }
    ensures name { (n : Name) → expr_tree (Net n) ≡ net n }
    ensures bit { (n : Name) (i : ℕ) → expr_tree (Bit n i) ≡ bit n i }
    ensures part { (n : Name) (l r : ℕ) → expr_tree (Part n l r) ≡ part n l r }
    ensures unary { (op : UnOp) (a : Expr) → expr_tree (Unary op a) ≡ unary op (expr_tree a) }
    ensures binary { (op : BinOp) (a b : Expr) →
        expr_tree (Binary op a b) ≡ binary op (expr_tree a) (expr_tree b) }
    ensures choice { (c a b : Expr) →
        expr_tree (Cond c a b) ≡ choice (expr_tree c) (expr_tree a) (expr_tree b) }
    ensures concat { (es : List Expr) → expr_tree (Concat es) ≡ join_all (map expr_tree es) }
    ensures repeat { (n : ℕ) (es : List Expr) →
        expr_tree (Repeat n es) ≡ repeated n (join_all (map expr_tree es)) }
{}

/// The trees of targets and statements, form by form. The proof stands in proofs/PureTrees.antt.
pub fn statement_trees()
    ensures name { (n : Name) → target_tree (target.Net n) ≡ net n }
    ensures bit { (n : Name) (i : ℕ) → target_tree (target.Bit n i) ≡ bit n i }
    ensures part { (n : Name) (l r : ℕ) → target_tree (target.Part n l r) ≡ part n l r }
    ensures concat { (ts : List Target) →
        target_tree (targets.Concat ts) ≡ join_all (map target_tree ts) }
    ensures empty { stmt_tree Empty ≡ idle }
    ensures set { (t : Target) (e : Expr) → stmt_tree (Set t e) ≡
        set (target_tree t) (expr_tree e) }
    ensures block { (ss : List Stmt) → stmt_tree (Block ss) ≡ in_sequence (map stmt_tree ss) }
    ensures without_else { (c : Expr) (a : Stmt) →
        stmt_tree (If c a None) ≡ branch (expr_tree c) (stmt_tree a) idle }
    ensures with_else { (c : Expr) (a b : Stmt) →
        stmt_tree (If c a (Some b)) ≡ branch (expr_tree c) (stmt_tree a) (stmt_tree b) }
{}

/// What a bit's driver computes depends on the bits that it reads alone, also in a design that is refused. The proof stands
/// in proofs/Respects.antt.
pub fn values_follow_reads()
    ensures { (f : Flat) (b : ℕ) → DriverDepends (driver_of f b) }
{
    operators_follow_reads();
}

/// A name has a number exactly where it is among the names. The proof stands in proofs/Numbers.antt.
pub fn names_by_number()
    ensures { (names : List Name) (n : Name) → is_some (number_of names n) ≡ has names n }
{}

/// The module of a name stands at the number of its name. The proof stands in proofs/Places.antt.
pub fn modules_by_number()
    ensures there { (all : List ModuleTree) (n : Name) (k : ℕ) →
        number_of (module_names all) n ≡ Some k → module_named all n ≡ slice_get all k }
    ensures nowhere { (all : List ModuleTree) (n : Name) →
        number_of (module_names all) n ≡ None → module_named all n ≡ None }
{}

/// A design is refused for one thing at most, and isn't accepted then. The proof stands in proofs/Outcomes.antt.
pub fn one_outcome()
    ensures one { (all : List ModuleTree) (top : Name) (r q : Refusal) →
        IsRefusedFor all top r → IsRefusedFor all top q → r ≡ q }
    ensures not_both { (all : List ModuleTree) (top : Name) (r : Refusal) →
        IsAccepted all top → IsRefusedFor all top r → ⊥ }
{}

/// The bit of an index that lies in a range is one of the net's, and has this index. The proof stands in
/// proofs/Indices.antt.
pub fn indices_and_positions()
    ensures { (r : Range) (i : ℕ) → is_inside r i ≡ true →
        (index_at r (position (Some r) i) ≡ i) × (position (Some r) i < range_width (Some r)) }
{}

/// Where full names are distinct, a net of a path has the number of the path's first bit and that which it has in its module.
/// The proof stands in proofs/Offsets.antt.
pub fn offsets_by_path()
    ensures { (before after : List Path) (p : Path) (n : Name) →
        first_again (full_names (nets_of (before ++ p ∷ after))) ≡ None →
        has (nets_in p.of) n ≡ true →
        offset (nets_of (before ++ p ∷ after)) (p.prefix ++ n) ≡
        total_width (nets_of before) + offset (nets_at (alone p.of)) n }
{}

/// What an instance costs with all in it doesn't depend on where it stands: one number for each module is enough. The proof
/// stands in proofs/Totals.antt.
pub fn cost_by_modules()
    ensures { (all : List ModuleTree) (top : Name) → design_cost all top ≡
        1 + if_there 0 (cost_below all (length all)) (module_named all top) }
{}
