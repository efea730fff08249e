//! What slots say of the next values of bits.

ghost use Rattle.std.specs.Prelude.{◌≡◌, ℕ, List};
ghost use Rattle.eq_net.specs.Tree.{Tree};
ghost use Rattle.eq_net.specs.declared.types.NetInfo.{NetInfo as NetInfoValue};
ghost use Rattle.eq_net.specs.declared.types.WordBit.{WordBit as WordBitValue};
ghost use Rattle.eq_verilog.specs.Registers.{Process, following, itself};
ghost use Rattle.eq_flatten.specs.declared.driving.Slot.TheVariants as slot;
ghost use Rattle.eq_registers.specs.Standing.{StandsFor};
ghost use Rattle.eq_sequential.specs.Setting.{SlotFollows};

/// The next value of a bit by its slot: itself where no always item sets it, and where one does what the slot's bit of
/// a word stands for. The proof stands in proofs/FollowingLemmas.antt.
pub fn following_by_slot()
    ensures none { (nets : List NetInfoValue) (words : List Tree) (ps : List Process) (b : ℕ) →
        SlotFollows nets words ps b slot.Free → following ps b ≡ itself b }
    ensures one { (nets : List NetInfoValue) (words : List Tree) (ps : List Process) (b : ℕ)
        (w : WordBitValue) → SlotFollows nets words ps b (slot.Once w) →
        StandsFor nets words w (following ps b) }
{}
