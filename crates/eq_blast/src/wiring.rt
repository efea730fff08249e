//! The words of a netlist as gates over its bits.

ghost use Rattle.std.specs.Prelude.{◌≡◌, ℕ, ◌+◌, ◌<◌, ◌≤◌, ◌^◌, [], ◌∷◌, false, true, map, sum_by, IfOk, OnOk, length, slice_index_or};
ghost use Rattle.eq_bits.specs.Node.{node_at};
ghost use Rattle.eq_bits.specs.declared.node.Node.TheVariants.{Const as ConstNode, Input as InputNode};
ghost use Rattle.eq_net.specs.Meaning.{cost_of, width};
ghost use Rattle.eq_net.specs.Net.{AreWords, bits_of, offset};
ghost use Rattle.eq_net.specs.Tree.{tree_of, trees_of};
ghost use Rattle.eq_net.specs.Whole.{parts_of};
ghost use Rattle.eq_blast.specs.inner.Growing.{Grown, HasConstants};
ghost use Rattle.eq_blast.specs.inner.Rows.{HasRows, drive_node};
ghost use Rattle.eq_blast.specs.inner.Stack.{Spells};
ghost use Rattle.eq_blast.specs.inner.Wiring.{IsWired, node_of};
ghost use Rattle.eq_blast.specs.inner.Words.{BeginAt, Fits, RowsThere, asks_in, bits_in};

use crate::words::{picked, push_word};
use eq_base::Memory;
use eq_bits::{Builder, Node, NodeIds, Nodes};
use eq_net::laws::{bits_stand_by_nets, words_follow_their_picks};
use eq_net::{Driver, Net, NetInfo, Word, WordBit};
use std::alloc::Global;

/// The gates over the bits, and for each bit the node that drives it.
#[derive(Debug, Drop)]
pub struct Wired {
    pub nodes: Nodes,
    pub drives: NodeIds,
}

/// Where the bits of each net begin.
fn starts(alloc: Global, nets: &[NetInfo]) -> Result<Vec<u32>, Memory>
    requires { bits_of nets.now < 2 ^ 32 }
    ensures { IfOk result (λ starts. BeginAt nets.now starts.items) }
{
    bits_stand_by_nets();
    let mut starts = Vec::with_capacity(alloc, nets.len())?;
    let mut next: u32 = 0;
    for net in nets {
        starts.push(next)?;
        next += net.width() as u32;
    }
    Ok(starts)
}

/// A builder with the constants.
fn constants(alloc: Global) -> Result<Builder, Memory>
    ensures { IfOk result (λ builder. builder ≡ ConstNode false ∷ ConstNode true ∷ []) }
{
    let mut builder = Builder::new(alloc)?;
    builder.node(Node::Const(false))?;
    builder.node(Node::Const(true))?;
    Ok(builder)
}

/// Adds an input for each of `count` bits.
fn add_bits(builder: &mut Builder, count: u32) -> Result<(), Memory>
    requires room { length builder.old + count < 2 ^ 32 }
    ensures size { OnOk result (length builder.new ≡ length builder.old + count) }
    ensures kept { OnOk result
        ((m : ℕ) → m < length builder.old → node_at builder.new m ≡ node_at builder.old m) }
    ensures bits { OnOk result
        ((b : ℕ) → b < count → node_at builder.new (length builder.old + b) ≡ InputNode b) }
{
    for b in 0..count {
        builder.node(Node::Input(b))?;
    }
    Ok(())
}

/// The nodes of the bits of a word.
fn put_word(
    alloc: Global,
    word: &Word,
    nets: &[NetInfo],
    starts: &[u32],
    earlier: &[NodeIds],
    builder: &mut Builder,
) -> Result<NodeIds, Memory>
    requires fits { Fits nets.now (tree_of word.now) }
    requires starts { BeginAt nets.now starts.now }
    requires constants { HasConstants builder.old }
    requires bits { 2 + bits_of nets.now ≤ length builder.old }
    requires rows { RowsThere builder.old earlier.now }
    requires room { length builder.old + cost_of (tree_of word.now) ≤ 2 ^ 21 }
    ensures grown { OnOk result (Grown (cost_of (tree_of word.now)) builder.old builder.new) }
    ensures size { IfOk result (λ nodes. length nodes ≡ width (tree_of word.now)) }
    ensures spells { IfOk result (λ nodes. Spells builder.new nodes 0 (width (tree_of word.now))
        (bits_in nets.now earlier.now (tree_of word.now))
        (asks_in nets.now earlier.now (tree_of word.now))) }
{
    let mut stack = Vec::new(alloc);
    push_word(word, nets, starts, earlier, builder, &mut stack)?;
    Ok(NodeIds::from_vec(stack))
}

/// The nodes of the bits of all words.
fn put_words(
    alloc: Global,
    words: &[Word],
    nets: &[NetInfo],
    starts: &[u32],
    builder: &mut Builder,
) -> Result<Vec<NodeIds>, Memory>
    requires words { AreWords nets.now (trees_of words.now) }
    requires starts { BeginAt nets.now starts.now }
    requires constants { HasConstants builder.old }
    requires bits { 2 + bits_of nets.now ≤ length builder.old }
    requires room { length builder.old + sum_by cost_of (trees_of words.now) ≤ 2 ^ 21 }
    ensures grown { OnOk result
        (Grown (sum_by cost_of (trees_of words.now)) builder.old builder.new) }
    ensures rows { IfOk result
        (λ rows. HasRows nets.now (trees_of words.now) (length words.now) builder.new rows.items) }
{
    words_follow_their_picks();
    let mut rows = Vec::with_capacity(alloc, words.len())?;
    for word in words {
        let row = put_word(alloc, word, nets, starts, &rows, builder)?;
        rows.push(row)?;
    }
    Ok(rows)
}

/// The node of what a driver names, and the constant 0 where there is no word.
fn drive(driver: Driver, rows: &[NodeIds]) -> u32
    ensures { result ≡ drive_node rows.now driver }
{
    match driver {
        Driver::Input => 0,
        Driver::Undriven => 0,
        Driver::Expr { word, bit } => picked(WordBit { word, bit }, rows),
        Driver::Reg { word, bit, .. } => picked(WordBit { word, bit }, rows),
    }
}

/// The nodes of what all drivers name.
fn drives(alloc: Global, drivers: &[Driver], rows: &[NodeIds]) -> Result<NodeIds, Memory>
    ensures { IfOk result (λ drives. drives ≡ map (drive_node rows.now) drivers.now) }
{
    let mut all = Vec::with_capacity(alloc, drivers.len())?;
    for driver in drivers {
        all.push(drive(*driver, rows))?;
    }
    Ok(NodeIds::from_vec(all))
}

/// The words of a netlist as gates over its bits.
pub fn wire(alloc: Global, net: &Net) -> Result<Wired, Memory>
    ensures { IfOk result (λ w. IsWired (parts_of net.now) w.nodes w.drives) }
{
    let nets = net.nets.as_slice();
    let starts = starts(alloc, nets)?;
    let mut builder = constants(alloc)?;
    add_bits(&mut builder, net.bits())?;
    let rows = put_words(alloc, net.words.as_slice(), nets, &starts, &mut builder)?;
    let drives = drives(alloc, net.drivers.as_slice(), &rows)?;
    Ok(Wired {
        nodes: builder.finish(),
        drives,
    })
}
