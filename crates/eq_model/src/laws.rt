//! The laws of systems and designs. Each is the contract of a function that does nothing.
//!
//! - here: bits, cycles, runs, induction, composition, parts and graphs, agreement.
//! - `equivalence`: what refutes an equivalence, and how equivalences join.
//! - `parts`: the first difference of a partition, the runs of a part, and the part of two graphs.

mod equivalence;
mod parts;

ghost use Rattle.std.specs.Prelude.{◌≡◌, ℕ, suc, ◌+◌, ◌<◌, ◌≤◌, ◌↔◌, Bool, cond, List, length, slice_index_or};
ghost use Rattle.eq_model.specs.System.{System, Values, IsSystem, IsLoopFree, Reads, Solves, IsInitial, Cycle, IsInput, Begins, Follows, compute, rounds, nothing, HasOneCycle};
ghost use Rattle.eq_model.specs.Run.{Design, IsDesign, IsPlaceOf, range, automatic, Given, Run, HasOneRun, HasPorts, SameOutputs, Equivalent, key, dir};
ghost use Rattle.eq_model.specs.Nets.{is_output, Net, net_width, first_bit};
ghost use Rattle.eq_model.specs.Frames.{HasOneList};
ghost use Rattle.eq_model.specs.Combinational.{IsCombinational, SameValues};
ghost use Rattle.eq_model.specs.Agreement.{SameSystem, SameDesign};
ghost use Rattle.eq_model.specs.Plan.{Plan, IsOneToOne, Covers};
ghost use Rattle.eq_model.specs.Cut.{Base, Step, Never};
ghost use Rattle.eq_model.specs.Kind.{Kind, proved, IsProved, IsKind};
ghost use Rattle.eq_model.specs.Part.{Part, IsPart, PartRun, PartBase, PartStep};
ghost use Rattle.eq_model.specs.Denotes.{Denotes};
ghost use Rattle.eq_model.specs.Copying.{Copying};
ghost use Rattle.eq_model.specs.Graph.{IsGraphOf, on_nodes};

pub use equivalence::{equivalence_joins, equivalence_refuted};
pub use parts::{copied_graphs, first_difference, part_runs};

/// A net's bits stand together, from place 0 up: place j of net k is the bit j after the net's first, and each bit is such
/// a place. So no two bits of a design have one name and place.
pub fn bits_of_nets()
    ensures number { (d : Design) → IsDesign d → (k j : ℕ) (n : Net) → k < length d.nets →
        slice_index_or d.nets k n ≡ n → j < net_width n → IsPlaceOf d n j (first_bit d.nets k + j) }
    ensures place { (d : Design) → IsDesign d → (b : ℕ) → b < d.bits → (n : Net) × (k : ℕ) ×
        (j : ℕ) × (k < length d.nets) × (slice_index_or d.nets k n ≡ n) × (j < net_width n) ×
        (b ≡ first_bit d.nets k + j) }
    ensures apart { (d : Design) → IsDesign d → (a b : ℕ) → a < d.bits → b < d.bits →
        key d a ≡ key d b → a ≡ b }
{}

/// One cycle: where the inputs, the registers and any further bits are given values, exactly one list of values meets
/// the other drivers.
pub fn one_cycle()
    ensures { (s : System) → IsSystem s → IsLoopFree s → (cut : ℕ → Bool) (u : Values) →
        HasOneCycle s cut u }
{}

/// A cycle is solved exactly where each bit has the value that it is given or that its driver computes.
pub fn computed()
    ensures { (s : System) (cut : ℕ → Bool) (u v : Values) →
        (Cycle s cut u v ↔ ((b : ℕ) → b < s.bits →
        v b ≡ cond (cut b) (u b) (compute (s.driver b) v (u b)))) }
{}

/// In a system without a loop, as many rounds of computing all bits as there are bits solve a cycle.
pub fn rounds_solve()
    ensures { (s : System) → IsSystem s → IsLoopFree s → (cut : ℕ → Bool) (u : Values) →
        Cycle s cut u (rounds s cut u s.bits) }
{}

/// A system has no loop where each bit reads only bits of lower rank.
pub fn ranked()
    ensures { (s : System) → IsSystem s → (rank : ℕ → ℕ) →
        ((a b : ℕ) → a < s.bits → Reads s a b → rank b < rank a) → IsLoopFree s }
{}

/// In a system without a loop each bit has such a rank, and none is above the number of bits.
pub fn heights()
    ensures { (s : System) → IsSystem s → IsLoopFree s → (height : ℕ → ℕ) ×
        ((a b : ℕ) → a < s.bits → Reads s a b → height b < height a) ×
        ((b : ℕ) → b < s.bits → height b ≤ s.bits) }
{}

/// A design without a loop has exactly one run, on each list of inputs of each length.
pub fn one_run()
    ensures { (d : Design) → IsSystem d.system → IsLoopFree d.system → (given : Given) (n : ℕ) →
        HasOneRun d given n }
{}

/// The first cycles of a run are a run. So outputs that are the same in the last cycle of runs of every length are the same
/// in every cycle.
pub fn shorter_runs()
    ensures run { (d : Design) (given : Given) (n : ℕ) (v : ℕ → Values) → Run d given n v →
        (m : ℕ) → m ≤ n → Run d given m v }
    ensures last { (gold gate : Design) → ((given : Given) (n : ℕ) (v w : ℕ → Values) →
        Run gold given (suc n) v → Run gate given (suc n) w → (a b : ℕ) → a < gold.bits →
        b < gate.bits → dir gold a ≡ is_output → dir gate b ≡ is_output → key gold a ≡ key gate b →
        v n a ≡ w n b) → SameOutputs gold gate }
{}

/// The same as `one_run` with a run as a list of frames.
pub fn one_list()
    ensures { (d : Design) → IsSystem d.system → IsLoopFree d.system → (given : Given) (n : ℕ) →
        HasOneList d given n }
{}

/// Cycles that are solved one after another are a run, where u has the inputs, in the first cycle the registers' initial
/// values, and in each later cycle what the registers follow with.
pub fn steps()
    ensures { (d : Design) (given : Given) (n : ℕ) (u v : ℕ → Values) →
        ((c : ℕ) → c < n → Cycle d.system nothing (u c) (v c)) →
        ((c b : ℕ) → c < n → b < d.bits → IsInput (d.driver b) → u c b ≡ given c (key d b)) →
        (0 < n → (b : ℕ) → b < d.bits → Begins (d.driver b) (u 0 b)) →
        ((c b : ℕ) → suc c < n → b < d.bits → Follows (d.driver b) (v c) (u (suc c) b)) →
        Run d given n v }
{}

/// Designs without registers are equivalent exactly where their outputs have the same values for all values of the inputs.
pub fn combinational()
    ensures { (gold gate : Design) → IsCombinational gold → IsCombinational gate → IsDesign gold →
        IsDesign gate → IsLoopFree gold.system → IsLoopFree gate.system → HasPorts gold gate →
        HasPorts gate gold → (Equivalent gold gate ↔ SameValues gold gate) }
{}

/// Induction: where no cut run from the initial values differs in its last cycle after 1 to k cycles, and no cut run that
/// is equal in k cycles differs in the next, no cut run from the initial values ever differs. So it is where k-induction
/// answers proved.
pub fn induction()
    ensures proved { (gold gate : System) (p : Plan) (inside : ℕ → Bool) (k : ℕ) →
        IsProved (Base gold gate p inside) (Step gold gate p inside) k → Never gold gate p inside }
    ensures kind { (gold gate : System) (p : Plan) (inside : ℕ → Bool) (depth k : ℕ) →
        IsKind (Base gold gate p inside) (Step gold gate p inside) depth (proved k) →
        Never gold gate p inside }
{}

/// Composition: where the plan covers two designs without a loop, and no partition ever differs, the designs are equivalent.
/// The reads of the two designs taken together may form cycles across partitions.
pub fn composition()
    ensures { (gold gate : Design) (p : Plan) → IsDesign gold → IsDesign gate →
        IsLoopFree gold.system → IsLoopFree gate.system → Covers gold gate p →
        ((q : ℕ) → q < p.parts → Never gold.system gate.system p (p.holds q)) →
        Equivalent gold gate }
{}

/// Both together: where induction proves each partition, at a k of its own, the designs are equivalent.
pub fn all_proved()
    ensures { (gold gate : Design) (p : Plan) → IsDesign gold → IsDesign gate →
        IsLoopFree gold.system → IsLoopFree gate.system → Covers gold gate p →
        ((q : ℕ) → q < p.parts → (k : ℕ) ×
        IsProved (Base gold.system gate.system p (p.holds q))
        (Step gold.system gate.system p (p.holds q)) k) → Equivalent gold gate }
{}

/// k-induction has one answer at most, on a partition and on a part.
pub fn one_kind()
    ensures partition { (gold gate : System) (p : Plan) (inside : ℕ →
        Bool) (depth : ℕ) (x y : Kind) →
        IsKind (Base gold gate p inside) (Step gold gate p inside) depth x →
        IsKind (Base gold gate p inside) (Step gold gate p inside) depth y → x ≡ y }
    ensures part { (t : Part) (depth : ℕ) (x y : Kind) → IsKind (PartBase t) (PartStep t) depth x →
        IsKind (PartBase t) (PartStep t) depth y → x ≡ y }
{}

/// A part that denotes a partition has the partition's queries, and its answer of k-induction at each depth.
pub fn queries()
    ensures base { (gold gate : System) (p : Plan) (inside : ℕ → Bool) (t : Part) →
        Denotes gold gate p inside t → (k : ℕ) → (Base gold gate p inside k ↔ PartBase t k) }
    ensures step { (gold gate : System) (p : Plan) (inside : ℕ → Bool) (t : Part) →
        Denotes gold gate p inside t → (k : ℕ) → (Step gold gate p inside k ↔ PartStep t k) }
    ensures kind { (gold gate : System) (p : Plan) (inside : ℕ → Bool) (t : Part) →
        Denotes gold gate p inside t → (depth : ℕ) (x : Kind) →
        (IsKind (Base gold gate p inside) (Step gold gate p inside) depth x ↔
        IsKind (PartBase t) (PartStep t) depth x) }
{}

/// Values that solve a part's nodes are those of a run of the part, for some inputs.
pub fn solved()
    ensures { (t : Part) → IsPart t → (n : ℕ) (x : ℕ → Values) → Solves t.system nothing n x →
        (given : ℕ → ℕ → Bool) × PartRun t given n x }
{}

/// A part into which both sides are copied node for node denotes the partition.
pub fn copying()
    ensures { (gold gate : System) (p : Plan) (inside : ℕ → Bool) (t : Part) → IsPart t →
        IsSystem gold → IsSystem gate → IsLoopFree gold → IsLoopFree gate → IsOneToOne gold gate p →
        Copying gold gate p inside t → Denotes gold gate p inside t }
{}

/// A run of a graph is one of the design that it follows: in each cycle a bit's own node has the bit's value.
pub fn graph_runs()
    ensures { (d : Design) (g : System) (own : ℕ → ℕ) → IsGraphOf d.system g own →
        (given : Given) (n : ℕ) (x : ℕ → Values) → Solves g nothing n x →
        (0 < n → IsInitial g nothing (x 0)) → ((c b : ℕ) → c < n → b < d.bits →
        IsInput (d.driver b) → x c (own b) ≡ given c (key d b)) →
        Run d given n (λ c b. x c (own b)) }
{}

/// What denotes a partition of two graphs denotes the partition of the systems that they follow.
pub fn graphs()
    ensures { (gold gate gold_graph gate_graph : System) (own_gold own_gate : ℕ → ℕ) →
        IsGraphOf gold gold_graph own_gold → IsGraphOf gate gate_graph own_gate → IsSystem gold →
        IsSystem gate → IsSystem gold_graph → IsSystem gate_graph → IsLoopFree gold_graph →
        IsLoopFree gate_graph → (p : Plan) (inside : ℕ → Bool) → IsOneToOne gold gate p →
        (t : Part) → Denotes gold_graph gate_graph (on_nodes own_gold own_gate p) inside t →
        Denotes gold gate p inside t }
{}

/// Designs that agree may stand for one another: in the premises of the laws, in plans, and in all that is asked of partitions.
pub fn agreement()
    ensures symmetric { (d e : Design) → SameDesign d e → SameDesign e d }
    ensures transitive { (d e f : Design) → SameDesign d e → SameDesign e f → SameDesign d f }
    ensures symmetric_system { (s t : System) → SameSystem s t → SameSystem t s }
    ensures transitive_system { (s t u : System) → SameSystem s t → SameSystem t u →
        SameSystem s u }
    ensures named { (d e : Design) → SameDesign d e → (b : ℕ) → (key d b ≡ key e b) ×
        (dir d b ≡ dir e b) × (range d b ≡ range e b) × (automatic d b ≡ automatic e b) }
    ensures told { (d e : Design) → SameDesign d e → (d.nets ≡ e.nets) × (d.ports ≡ e.ports) ×
        (d.clock ≡ e.clock) }
    ensures design { (d e : Design) → SameDesign d e → IsDesign d → IsDesign e }
    ensures loop_free { (d e : Design) → SameDesign d e → IsDesign d → IsLoopFree d.system →
        IsLoopFree e.system }
    ensures run { (d e : Design) → SameDesign d e → (given : Given) (n : ℕ) (v : ℕ → Values) →
        Run d given n v → Run e given n v }
    ensures equivalent { (gold gate other_gold other_gate : Design) → SameDesign gold other_gold →
        SameDesign gate other_gate → Equivalent gold gate → Equivalent other_gold other_gate }
    ensures covers { (gold gate other_gold other_gate : Design) → SameDesign gold other_gold →
        SameDesign gate other_gate → (p : Plan) → Covers gold gate p →
        Covers other_gold other_gate p }
    ensures base { (s s' h h' : System) → SameSystem s s' → SameSystem h h' →
        (p : Plan) (inside : ℕ → Bool) (k : ℕ) → (Base s h p inside k ↔ Base s' h' p inside k) }
    ensures step { (s s' h h' : System) → SameSystem s s' → SameSystem h h' →
        (p : Plan) (inside : ℕ → Bool) (k : ℕ) → (Step s h p inside k ↔ Step s' h' p inside k) }
    ensures never { (s s' h h' : System) → SameSystem s s' → SameSystem h h' →
        (p : Plan) (inside : ℕ → Bool) → Never s h p inside → Never s' h' p inside }
    ensures kind { (s s' h h' : System) → SameSystem s s' → SameSystem h h' →
        (p : Plan) (inside : ℕ → Bool) (depth : ℕ) (x : Kind) →
        (IsKind (Base s h p inside) (Step s h p inside) depth x ↔
        IsKind (Base s' h' p inside) (Step s' h' p inside) depth x) }
    ensures denotes { (s s' h h' : System) → SameSystem s s' → SameSystem h h' →
        (p : Plan) (inside : ℕ → Bool) (t : Part) → Denotes s h p inside t →
        Denotes s' h' p inside t }
{}
