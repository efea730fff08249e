//! The builder of shared nodes, the values of a cycle, and the first difference of a run.

ghost use Rattle.std.specs.Prelude.{◌≡◌, ◌<◌, All, IfOk, length};
ghost use Rattle.eq_bits.specs.Part.{NamesNodes};
ghost use Rattle.test_netlists.specs.Counter.{counter_nodes};

use eq_bits::{
    Bits, Builder, Difference, Frames, Names, Node, Nodes, Output, Outputs, Part, Run, Scratch,
    eval, replay,
};
use eq_names::Name;
use std::alloc::Global;
use std::test::Fail;

/// One output whose sides are one node, one that differs where the counter is at 2, and one that does so at 2 and at 3.
fn outputs(alloc: Global) -> Result<Outputs, Fail>
    ensures nodes { IfOk result (All (NamesNodes 11)) }
    ensures count { IfOk result (λ outputs. length outputs ≡ 3) }
{
    let mut outputs = Outputs::new(alloc);
    outputs.push(Output {
        name: Name::read(alloc, b"q")?,
        gold: 0,
        gate: 0,
    })?;
    outputs.push(Output {
        name: Name::read(alloc, b"y")?,
        gold: 7,
        gate: 8,
    })?;
    outputs.push(Output {
        name: Name::read(alloc, b"z")?,
        gold: 1,
        gate: 8,
    })?;
    Ok(outputs)
}

fn counter_nodes(alloc: Global) -> Result<Nodes, Fail>
    ensures { IfOk result (λ nodes. nodes ≡ counter_nodes) }
{
    Ok(Nodes::from_slice(
        alloc,
        &[
            Node::Reg {
                next: 3,
                init: false,
            },
            Node::Reg {
                next: 5,
                init: false,
            },
            Node::Input(0),
            Node::Xor(0, 2),
            Node::And(0, 2),
            Node::Xor(1, 4),
            Node::Not(0),
            Node::And(1, 6),
            Node::Const(false),
            Node::Mux(2, 1, 0),
            Node::Buf(9),
        ],
    )?)
}

/// A counter of two bits that counts while its input is 1.
fn counter(alloc: Global) -> Result<Part, Fail>
    ensures nodes { IfOk result (λ part. part.nodes ≡ counter_nodes) }
    ensures inputs { IfOk result (λ part. length part.inputs ≡ 1) }
{
    let mut inputs = Names::new(alloc);
    inputs.push(Name::read(alloc, b"en")?)?;
    Ok(Part {
        name: Name::read(alloc, b"y")?,
        inputs,
        nodes: counter_nodes(alloc)?,
        outputs: outputs(alloc)?,
    })
}

#[test]
fn answers_the_number_of_an_equal_gate(rt: HostRuntime) -> Result<(), Fail> {
    let mut builder = Builder::new(rt.alloc())?;
    assert_eq!(rt; builder.node(Node::Input(0))?, 0);
    assert_eq!(rt; builder.node(Node::Input(1))?, 1);
    assert_eq!(rt; builder.node(Node::And(1, 0))?, 2);
    assert_eq!(rt; builder.node(Node::And(0, 1))?, 2);
    assert_eq!(rt; builder.register(false)?, 3);
    assert_eq!(rt; builder.register(false)?, 4);
    builder.set_next(4, 2);
    assert_eq!(rt; builder.len(), 5);
    let nodes = builder.finish();
    assert_eq!(rt;
        nodes.as_slice(),
        [
            Node::Input(0),
            Node::Input(1),
            Node::And(0, 1),
            Node::Reg {
                next: 3,
                init: false
            },
            Node::Reg {
                next: 2,
                init: false
            },
        ]
        .as_slice()
    );
    Ok(())
}

/// The first of these values of the counter's nodes that is another.
fn first_wrong(scratch: &Scratch, wanted: &[bool; 11]) -> Option<u32>
    requires { length scratch.now ≡ 11 }
{
    (0..11).find(|node| scratch.value(*node) != wanted[*node as usize])
}

#[test]
fn gives_the_nodes_of_a_counter_their_values(rt: HostRuntime) -> Result<(), Fail> {
    let part = counter(rt.alloc())?;
    let mut scratch = Scratch::new(rt.alloc(), &part)?;
    assert_eq!(rt; part.register_count(), 2);
    // The registers and the input, then the nodes from 2 on.
    let cycles: [([bool; 2], bool, [bool; 11]); 4] = [
        (
            [false, false],
            true,
            [
                false, false, true, true, false, false, true, false, false, false, false,
            ],
        ),
        (
            [true, false],
            true,
            [
                true, false, true, false, true, true, false, false, false, false, false,
            ],
        ),
        (
            [false, true],
            true,
            [
                false, true, true, true, false, true, true, true, false, true, true,
            ],
        ),
        (
            [true, true],
            false,
            [
                true, true, false, true, false, true, false, false, false, true, true,
            ],
        ),
    ];
    for (regs, input, wanted) in cycles {
        eval(&part, &regs, &[input], &mut scratch);
        assert_eq!(rt; first_wrong(&scratch, &wanted), None);
    }
    Ok(())
}

/// A run of the counter from these registers, in which its input has these values.
fn run(alloc: Global, regs: &[bool; 2], inputs: &[bool]) -> Result<Run, Fail>
    ensures regs { IfOk result (λ run. length run.regs ≡ 2) }
    ensures inputs { IfOk result (λ run. All (λ frame. length frame ≡ 1) run.inputs) }
    ensures cycles { IfOk result (λ run. length run.inputs ≡ length inputs.now) }
{
    let mut frames = Frames::new(alloc);
    for input in inputs {
        frames.push(Bits::from_slice(alloc, &[*input])?)?;
    }
    Ok(Run {
        regs: Bits::from_slice(alloc, regs)?,
        inputs: frames,
    })
}

#[test]
fn finds_the_first_difference_of_a_run(rt: HostRuntime) -> Result<(), Fail> {
    let part = counter(rt.alloc())?;
    let mut scratch = Scratch::new(rt.alloc(), &part)?;
    let rows: [([bool; 2], [bool; 4], Option<(u32, u32)>); 6] = [
        // the counter is at 0, 1, 2, 3
        ([false, false], [true, true, true, true], Some((2, 1))),
        // 2, 3, 0, 1
        ([false, true], [true, true, true, true], Some((0, 1))),
        // 1, 1, 2, 2
        ([true, false], [false, true, false, true], Some((2, 1))),
        // 3, 0, 1, 2
        ([true, true], [true, true, true, true], Some((0, 2))),
        // 3, 3, 3, 3
        ([true, true], [false, false, false, false], Some((0, 2))),
        // 0, 0, 1, 1
        ([false, false], [false, true, false, false], None),
    ];
    for (regs, inputs, wanted) in rows {
        let run = run(rt.alloc(), &regs, &inputs)?;
        let found = replay(&part, &run, &mut scratch).map(|d| (d.cycle, d.output));
        assert_eq!(rt; found, wanted);
    }
    Ok(())
}
