//! Two netlists of one function, whose reads form a cycle when they are taken together.

ghost use Rattle.std.specs.Prelude.{◌≡◌, ◌<◌, ◌^◌, IfOk, length, true};
ghost use Rattle.eq_net.specs.Tree.{binary as binary_tree, tree_of, trees_of};
ghost use Rattle.test_plans.specs.Crossing as spec;

use crate::chains::{drafted, reading};
use crate::types::{Draft, Wire};
use eq_base::Boxed;
use eq_net::laws::test_of_nets;
use eq_net::{Dir, Net, Word, WordOp, Words};
use std::alloc::Global;
use std::test::Fail;

/// `x`, `p` and `q`. What a wire of this table reads isn't looked at.
const WIRES: [Wire; 3] = [
    Wire {
        name: b"x",
        dir: Dir::Input,
        auto: false,
        reads: 0,
        register: false,
        rank: 0,
    },
    Wire {
        name: b"p",
        dir: Dir::Output,
        auto: false,
        reads: 0,
        register: false,
        rank: 0,
    },
    Wire {
        name: b"q",
        dir: Dir::Output,
        auto: false,
        reads: 0,
        register: false,
        rank: 0,
    },
];

pub fn binary(alloc: Global, op: WordOp, left: Word, right: Word) -> Result<Word, Fail>
    ensures { IfOk result (λ word. tree_of word ≡ binary_tree op (tree_of left) (tree_of right)) }
{
    let left = Boxed::new(alloc, left)?;
    let right = Boxed::new(alloc, right)?;
    Ok(Word::Binary(op, left, right))
}

fn gold_words(alloc: Global) -> Result<Words, Fail>
    ensures { IfOk result (λ words. trees_of words ≡ spec.gold_words) }
{
    let either = binary(alloc, WordOp::Or, reading(alloc, 0)?, reading(alloc, 2)?)?;
    let both = binary(alloc, WordOp::And, reading(alloc, 0)?, either)?;
    let mut words = Words::new(alloc);
    words.push(reading(alloc, 0)?)?;
    words.push(both)?;
    words.push(reading(alloc, 0)?)?;
    Ok(words)
}

fn gate_words(alloc: Global) -> Result<Words, Fail>
    ensures { IfOk result (λ words. trees_of words ≡ spec.gate_words) }
{
    let both = binary(alloc, WordOp::And, reading(alloc, 0)?, reading(alloc, 1)?)?;
    let either = binary(alloc, WordOp::Or, reading(alloc, 0)?, both)?;
    let mut words = Words::new(alloc);
    words.push(reading(alloc, 0)?)?;
    words.push(reading(alloc, 0)?)?;
    words.push(either)?;
    Ok(words)
}

fn gold_of(alloc: Global, wires: &[Wire]) -> Result<Net, Fail>
    requires few { length wires.now < 2 ^ 31 }
    requires good { spec.is_gold wires.now ≡ true }
{
    test_of_nets();
    let words = gold_words(alloc)?;
    let Draft {
        nets,
        drivers,
        ports,
    } = drafted(alloc, wires)?;
    Ok(Net {
        nets,
        words,
        drivers,
        ports,
        clock: None,
        cost: 2_000_000,
    })
}

fn gate_of(alloc: Global, wires: &[Wire]) -> Result<Net, Fail>
    requires few { length wires.now < 2 ^ 31 }
    requires good { spec.is_gate wires.now ≡ true }
{
    test_of_nets();
    let words = gate_words(alloc)?;
    let Draft {
        nets,
        drivers,
        ports,
    } = drafted(alloc, wires)?;
    Ok(Net {
        nets,
        words,
        drivers,
        ports,
        clock: None,
        cost: 2_000_000,
    })
}

/// `p` reads `q`.
pub fn crossing_gold(alloc: Global) -> Result<Net, Fail> {
    gold_of(alloc, &WIRES)
}

/// `q` reads `p`.
pub fn crossing_gate(alloc: Global) -> Result<Net, Fail> {
    gate_of(alloc, &WIRES)
}
