//! The plan of a comparison: pairs, partitions, and tables that tell of each bit its pair and of each pair its partition.

ghost use Rattle.std.specs.Prelude.{◌≡◌, length};
ghost use Rattle.eq_part.specs.Tables.{AreInverse, AreOwners};
ghost use Rattle.eq_part.specs.inner.TablesProp.{AreInverse-prop, AreOwners-prop};

use crate::types::Partitions;
use eq_base::Items;
use eq_match::Pairs;

/// Bits by their numbers in the row of all.
pub type BitNumbers = Items<u32>;

/// Places in a list, none where there is none.
pub type Places = Items<Option<u32>>;

/// The paired bits of one side.
#[derive(Debug, Drop)]
pub struct PairedBits {
    /// Of each pair the number of its bit.
    pub bits: BitNumbers,
    /// Of each bit its pair.
    pub pairs: Places,
    pub ghost inverse: { AreInverse bits pairs } by { AreInverse-prop bits pairs },
}

/// What is compared, and in which parts.
#[derive(Debug, Drop)]
pub struct Plan {
    pub pairs: Pairs,
    pub parts: Partitions,
    pub gold: PairedBits,
    pub gate: PairedBits,
    /// Of each pair the partition that holds it, none for inputs.
    pub owners: Places,
    pub ghost gold_count: { length gold.bits ≡ length pairs },
    pub ghost gate_count: { length gate.bits ≡ length pairs },
    pub ghost owned: { AreOwners pairs parts owners } by { AreOwners-prop pairs parts owners },
}
