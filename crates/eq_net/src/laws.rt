//! Laws of netlists, over the definitions alone.

ghost use Rattle.std.specs.Prelude.{◌≡◌, ◌==◌, ◌+◌, ◌-◌, ◌*◌, ◌/◌, ◌%◌, ◌^◌, ℕ, ◌<◌, List, Bool, false, not, cond, length, min, nat_lt, slice_index_or, true};
ghost use Rattle.eq_model.specs.Run.{Given, IsDesign, Run};
ghost use Rattle.eq_model.specs.Frames.{values};
ghost use Rattle.eq_model.specs.System.{HasOneCycle, IsSystem, Values};
ghost use Rattle.eq_net.specs.Cycles.{AreSteps};
ghost use Rattle.eq_names.specs.declared.BitName.{BitName};
ghost use Rattle.eq_net.specs.Decided.{is_net, is_net_by_bits};
ghost use Rattle.eq_net.specs.Following.{ChoicesFollow, ExtensionsFollow, NegativesFollow, OperationsFollow, ReductionsFollow};
ghost use Rattle.eq_net.specs.Meaning.{bit_of, result_size};
ghost use Rattle.eq_net.specs.Net.{AreWords, HasWordBit, IsNet, IsWord, Parts, bits_of, design_of, net_at, offset, system_of};
ghost use Rattle.eq_net.specs.Nets.{width_of};
ghost use Rattle.eq_net.specs.Numbers.{Digits, differ, digit, number};
ghost use Rattle.eq_net.specs.Operators.{apply, choose, has_free_sizes, negative, reduce};
ghost use Rattle.eq_net.specs.Ripples.{carry, less, lowered, raised, same};
ghost use Rattle.eq_net.specs.Tree.{Tree};
ghost use Rattle.eq_net.specs.declared.types.NetInfo.{NetInfo};
ghost use Rattle.eq_net.specs.declared.types.RedOp.{RedOp};
ghost use Rattle.eq_net.specs.declared.types.WordBit.{WordBit};
ghost use Rattle.eq_net.specs.declared.types.WordOp.{WordOp};

use eq_model::laws::{one_cycle, ranked, steps};

/// Words that read bits of the nets make a system, whatever drivers name their bits. The proof stands in
/// proofs/Designed.antt.
pub fn words_make_a_system()
    ensures { (n : Parts) → AreWords n.nets n.words → IsSystem (system_of n) }
{}

/// What a net stands for is a design. The proof stands in proofs/Designed.antt.
pub fn net_is_design()
    ensures { (n : Parts) → IsNet n → IsDesign (design_of n) }
{}

/// One cycle of a net: where its inputs, its registers and any further bits are given values, exactly one list of values
/// meets the driver of every other bit. It is `one_cycle` of `eq_model` at this net.
pub fn one_cycle_of_net()
    ensures { (n : Parts) → IsNet n → (cut : ℕ → Bool) (given : Values) →
        HasOneCycle (system_of n) cut given }
{
    one_cycle();
}

/// Steps that follow one another from the initial values are the run on these inputs, and there is no other. The proof
/// stands in proofs/Stepping.antt.
pub fn steps_are_the_run()
    ensures { (n : Parts) → IsNet n →
        (given : Given) (cycles : ℕ) (states inputs bits : ℕ → List Bool) →
        AreSteps n given cycles states inputs bits →
        Run (design_of n) given cycles (λ c. values (bits c)) }
{
    steps();
}

/// The lowest w digits of a number spell it modulo 2 ^ w, and a number of w digits has these digits. The proof stands in
/// proofs/Wholes.antt.
pub fn numbers_read_back()
    ensures number { (w n : ℕ) → number w (digit n) ≡ n % 2 ^ w }
    ensures digit { (w j : ℕ) (f : Digits) → j < w → digit (number w f) j ≡ f j }
{}

/// Each bit that an operator computes depends on what it says is read alone. The proof stands in proofs/Depending.antt.
pub fn operators_follow_reads()
    ensures operations { OperationsFollow }
    ensures reductions { ReductionsFollow }
    ensures negatives { NegativesFollow }
    ensures extensions { ExtensionsFollow }
    ensures choices { ChoicesFollow }
{}

/// A netlist of which the test says yes, with some ranks of bits and tops of words, keeps what a net keeps. So a netlist of
/// constants is shown to be a net by computing. The proof stands in proofs/Deciding.antt.
pub fn test_of_nets()
    ensures { (rank tops : ℕ → ℕ) (n : Parts) → is_net rank tops n ≡ true → IsNet n }
{
    ranked();
}

/// The same of a test that looks at each bit's reads, so that words may read their own bits. The proof stands in
/// proofs/Deciding.antt.
pub fn test_of_bits()
    ensures { (rank : ℕ → ℕ) (n : Parts) → is_net_by_bits rank n ≡ true → IsNet n }
{
    ranked();
}

/// A sum bit by bit, from the lowest bit up: each bit differs from the exclusive or of its operands where a carry comes in.
/// The proof stands in proofs/Rippling.antt.
pub fn sums_by_carries()
    ensures { (n j : ℕ) (c : Bool) (a b : Digits) → j < n →
        differ (differ (a j) (b j)) (carry c a b j) ≡
        digit ((number n a + number n b) + cond {A = ℕ} c 1 0) j }
{}

/// A difference, and a negative, by the complement of what is taken away. The proof stands in proofs/Rippling.antt.
pub fn differences_by_complements()
    ensures difference { (n : ℕ) (a b : Digits) →
        (number n a + number n (λ i. not (b i))) + 1 ≡ (2 ^ n + number n a) - number n b }
    ensures negative { (n : ℕ) (z a : Digits) → ((i : ℕ) → i < n → z i ≡ false) →
        (number n z + number n (λ i. not (a i))) + 1 ≡ 2 ^ n - number n a }
{}

/// Two numbers are compared bit by bit, from the lowest bit up. The proof stands in proofs/Rippling.antt.
pub fn order_from_the_lowest()
    ensures less { (n : ℕ) (a b : Digits) → less a b n ≡ nat_lt (number n a) (number n b) }
    ensures same { (n : ℕ) (a b : Digits) → same a b n ≡ (number n a == number n b) }
{}

/// A shift by the stages of its amount, each of which shifts what the one before left, by no more than the width. The proof
/// stands in proofs/Rippling.antt.
pub fn shifts_by_stages()
    ensures up { (m k j : ℕ) (a : Digits) → j < m →
        raised (min m k) a j ≡ digit (number m a * 2 ^ k) j }
    ensures down { (m k j : ℕ) (a : Digits) →
        lowered m (min m k) a j ≡ digit (number m a / 2 ^ k) j }
    ensures up_twice { (m k d j : ℕ) (a : Digits) → j < m →
        raised (min m d) (raised (min m k) a) j ≡ raised (min m (k + d)) a j }
    ensures down_twice { (m k d j : ℕ) (a : Digits) →
        lowered m (min m d) (lowered m (min m k) a) j ≡ lowered m (min m (k + d)) a j }
{}

/// Of its operands an operation sees no more bits than they have. The proof stands in proofs/Below.antt.
pub fn operations_see_their_bits()
    ensures number { (n : ℕ) (f g : Digits) → ((i : ℕ) → i < n → f i ≡ g i) →
        number n f ≡ number n g }
    ensures binary { (m n : ℕ) (f g h k : Digits) → ((i : ℕ) → i < m → f i ≡ h i) →
        ((i : ℕ) → i < n → g i ≡ k i) → (o : WordOp) (j : ℕ) →
        (has_free_sizes o ≡ false → m ≡ n) → j < result_size o m →
        apply o m n f g j ≡ apply o m n h k j }
    ensures negative { (n j : ℕ) (f h : Digits) → ((i : ℕ) → i < n → f i ≡ h i) →
        negative n f j ≡ negative n h j }
    ensures reduce { (o : RedOp) (n : ℕ) (f h : Digits) → ((i : ℕ) → i < n → f i ≡ h i) →
        reduce o n f ≡ reduce o n h }
    ensures choose { (n m j : ℕ) (c d f g h k : Digits) → ((i : ℕ) → i < n → c i ≡ d i) →
        ((i : ℕ) → i < m → f i ≡ h i) → ((i : ℕ) → i < m → g i ≡ k i) → j < m →
        choose n c f g j ≡ choose n d h k j }
{}

/// A word has the same bits where the bits that it picks of earlier words are the same. The proof stands in
/// proofs/Follows.antt.
pub fn words_follow_their_picks()
    ensures { (v : Values) (number : BitName → ℕ) (nets : List NetInfo) (words : List Tree)
        (k : ℕ) (e d : ℕ → ℕ → Bool) →
        ((b : WordBit) → HasWordBit words k b → e b.word b.bit ≡ d b.word b.bit) →
        (t : Tree) → IsWord nets words k t → (j : ℕ) →
        bit_of v number e t j ≡ bit_of v number d t j }
{}

/// Where the bits of nets stand in the row of all. The proof stands in proofs/Offsets.antt.
pub fn bits_stand_by_nets()
    ensures there { (nets : List NetInfo) (k j : ℕ) → k < length nets →
        j < width_of (net_at nets k) → offset nets k + j < bits_of nets }
    ensures first { (nets : List NetInfo) → offset nets 0 ≡ 0 }
    ensures next { (nets : List NetInfo) (k : ℕ) (n : NetInfo) → k < length nets →
        n ≡ slice_index_or nets k n → offset nets (k + 1) ≡ offset nets k + width_of n }
{}
