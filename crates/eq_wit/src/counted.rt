//! Numbers of a part that take a pass over its nodes, each found once.

ghost use Rattle.std.specs.Prelude.{◌≡◌, ◌<◌, None, Some, Option, IfOk, length, replicate, slice_get};
ghost use Rattle.eq_bits.specs.Cycle.{register_count};
ghost use Rattle.eq_unroll.specs.Query.{IsUnrollable};
ghost use Rattle.eq_unroll.specs.declared.query.Query.TheVariants as XQuery;
ghost use Rattle.eq_wit.specs.Texts as texts;
ghost use Rattle.eq_wit.specs.inner.Counting as spec;

use crate::print::first_number;
use eq_base::{Items, Memory};
use eq_bits::Part;
use eq_unroll::Query;
use std::alloc::Global;

/// The numbers of the first steps of a query's logs that are known, each at its number of cycles.
pub type Firsts = Items<Option<u64>>;

/// What is known of a part.
#[derive(Drop)]
pub struct Counts {
    pub registers: Option<usize>,
    pub base: Firsts,
    pub step: Firsts,
}

/// No number for so many numbers of cycles.
fn none_yet(alloc: Global, size: usize) -> Result<Firsts, Memory>
    ensures { IfOk result (λ firsts. firsts ≡ replicate size None) }
{
    Ok(Items::from_vec(vec![in alloc; None; size]?))
}

/// The number that is known at so many cycles.
fn known(firsts: &Firsts, k: u32) -> Option<u64>
    requires { k < length firsts.now }
    ensures { slice_get firsts.now k ≡ Some result }
{
    firsts.as_slice()[k as usize]
}

/// The number of the first step of a query's log, by a pass over the part's nodes.
fn found(firsts: &mut Firsts, part: &Part, query: Query, k: u32) -> u64
    requires unrollable { IsUnrollable part.now k }
    requires firsts { spec.AreFirsts part.now query firsts.old }
    ensures value { result ≡ texts.first_number part.now query k }
    ensures kept { spec.AreFirsts part.now query firsts.new }
{
    let number = first_number(part, query, k);
    firsts.set(k as usize, Some(number));
    number
}

/// The number of the first step of a query's log.
fn number_at(firsts: &mut Firsts, part: &Part, query: Query, k: u32) -> u64
    requires unrollable { IsUnrollable part.now k }
    requires firsts { spec.AreFirsts part.now query firsts.old }
    ensures value { result ≡ texts.first_number part.now query k }
    ensures kept { spec.AreFirsts part.now query firsts.new }
{
    match known(firsts, k) {
        Some(number) => number,
        None => found(firsts, part, query, k),
    }
}

impl Counts {
    /// Nothing is known.
    pub fn new(alloc: Global) -> Result<Counts, Memory>
        ensures { IfOk result spec.CountsNothing }
    {
        let base = none_yet(alloc, 65)?;
        let step = none_yet(alloc, 65)?;
        Ok(Counts {
            registers: None,
            base,
            step,
        })
    }

    /// How many registers the part has.
    pub fn registers_of(&mut self, part: &Part) -> usize
        requires { spec.AreCounts part.now self.old }
        ensures value { result ≡ register_count part.now.nodes }
        ensures kept { spec.AreCounts part.now self.new }
    {
        if let Some(count) = self.registers {
            return count;
        }
        let count = part.register_count();
        self.registers = Some(count);
        count
    }

    /// The number of the first step of a query's log.
    pub fn first_number(&mut self, part: &Part, query: Query, k: u32) -> u64
        requires unrollable { IsUnrollable part.now k }
        requires counts { spec.AreCounts part.now self.old }
        ensures value { result ≡ texts.first_number part.now query k }
        ensures kept { spec.AreCounts part.now self.new }
    {
        match query {
            Query::Base => number_at(&mut self.base, part, query, k),
            Query::Step => number_at(&mut self.step, part, query, k),
        }
    }
}
