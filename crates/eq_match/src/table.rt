//! The pairs of nets, by nets of gold and by nets of gate.

ghost use Rattle.std.specs.Prelude.{◌≡◌, ◌==◌, ◌<◌, None, Some, if◌then◌else◌, IfOk, length};
ghost use Rattle.eq_match.specs.NetPairs.{SamePairs, paired, without};
ghost use Rattle.eq_match.specs.inner.Tables.{IsTable, owner_of, pairing_of, released};

use crate::types::Partner;
use eq_base::Memory;
use std::alloc::Global;

/// For each net of gold its partner, and for each net of gate the net of gold whose partner it is.
#[derive(Drop)]
pub struct Table {
    pub partners: Vec<Option<Partner>>,
    pub owners: Vec<Option<u32>>,
}

/// A table without pairs.
pub fn no_pairs(alloc: Global, gold: usize, gate: usize) -> Result<Table, Memory>
    ensures table { IfOk result (λ t. IsTable gold gate t.partners.items t.owners.items) }
    ensures none { IfOk result (λ t. SamePairs (pairing_of t.partners.items) (λ k. None)) }
{
    let partners = vec![in alloc; None; gold]?;
    let owners = vec![in alloc; None; gate]?;
    Ok(Table { partners, owners })
}

impl Table {
    /// The partner of a net of gold.
    pub fn partner(&self, k: u32) -> Option<Partner>
        requires { k < length self.now.partners.items }
        ensures { result ≡ pairing_of self.now.partners.items k }
    {
        self.partners[k as usize]
    }

    /// The pair of a net of gold goes, if it has one.
    pub fn release(&mut self, k: u32)
        requires table { IsTable (length self.old.partners.items) (length self.old.owners.items)
            self.old.partners.items self.old.owners.items }
        requires there { k < length self.old.partners.items }
        ensures table { IsTable (length self.old.partners.items) (length self.old.owners.items)
            self.new.partners.items self.new.owners.items }
        ensures pairs { SamePairs (pairing_of self.new.partners.items)
            (released (pairing_of self.old.partners.items) k) }
    {
        if let Some(partner) = self.partners[k as usize] {
            self.partners[k as usize] = None;
            self.owners[partner.net as usize] = None;
        }
    }

    /// The pair of a net of gate goes, if it has one.
    fn release_gate(&mut self, h: u32)
        requires table { IsTable (length self.old.partners.items) (length self.old.owners.items)
            self.old.partners.items self.old.owners.items }
        requires there { h < length self.old.owners.items }
        ensures table { IsTable (length self.old.partners.items) (length self.old.owners.items)
            self.new.partners.items self.new.owners.items }
        ensures pairs { SamePairs (pairing_of self.new.partners.items)
            (λ g. without h (pairing_of self.old.partners.items g)) }
        ensures free { owner_of self.new.owners.items h ≡ None }
    {
        if let Some(k) = self.owners[h as usize] {
            self.partners[k as usize] = None;
            self.owners[h as usize] = None;
        }
    }

    /// Two nets without pairs are paired.
    fn join(&mut self, k: u32, partner: Partner)
        requires table { IsTable (length self.old.partners.items) (length self.old.owners.items)
            self.old.partners.items self.old.owners.items }
        requires gold_there { k < length self.old.partners.items }
        requires gate_there { partner.net < length self.old.owners.items }
        requires gold_free { pairing_of self.old.partners.items k ≡ None }
        requires gate_free { owner_of self.old.owners.items partner.net ≡ None }
        ensures table { IsTable (length self.old.partners.items) (length self.old.owners.items)
            self.new.partners.items self.new.owners.items }
        ensures pairs { SamePairs (pairing_of self.new.partners.items)
            (λ g. if g == k then Some partner else pairing_of self.old.partners.items g) }
    {
        self.partners[k as usize] = Some(partner);
        self.owners[partner.net as usize] = Some(k);
    }

    /// All pairs that hold either net go, and the pair of the two comes.
    pub fn pair(&mut self, k: u32, partner: Partner)
        requires table { IsTable (length self.old.partners.items) (length self.old.owners.items)
            self.old.partners.items self.old.owners.items }
        requires gold_there { k < length self.old.partners.items }
        requires gate_there { partner.net < length self.old.owners.items }
        ensures table { IsTable (length self.old.partners.items) (length self.old.owners.items)
            self.new.partners.items self.new.owners.items }
        ensures pairs { SamePairs (pairing_of self.new.partners.items)
            (paired (pairing_of self.old.partners.items) k partner) }
    {
        self.release(k);
        self.release_gate(partner.net);
        self.join(k, partner);
    }
}
