//! Several texts for one design, and texts that aren't in the grammar.

use crate::reading::{Fault, netlist_of};
use std::alloc::Global;
use std::test::Fail;

static OUTSIDE: [&str; 7] = [
    "module t",
    "module t; endmodule endmodule",
    "module t(a); input a; assign a = 4'bx; endmodule",
    "module t(c); input c; reg q; always @(negedge c) q <= ~q; endmodule",
    "module t(c); input c; reg q; always @(posedge c or posedge c) q <= ~q; endmodule",
    "module t(a, y); input a; output y; assign y = a + 1; endmodule",
    "module t(a, y); inout a; output y; assign y = a; endmodule",
];

fn is_outside(alloc: Global, text: &str) -> bool {
    let texts = [text.as_bytes()];
    matches!(netlist_of(alloc, &texts, b"t"), Err(Fault::Text))
}

/// The first text that isn't refused for its form.
fn first_inside(alloc: Global) -> Option<usize> {
    for (place, text) in OUTSIDE.iter().enumerate() {
        if !is_outside(alloc, text) {
            return Some(place);
        }
    }
    None
}

/// How many bits the design of two texts has, with this top.
fn bits_of_two(alloc: Global, top: &[u8]) -> Option<u32> {
    let texts: [&[u8]; 2] = [
        b"module m(i, o); input i; output o; n u(i, o); endmodule",
        b"module n(i, o); input i; output o; not (o, i); endmodule
          module t(a, y); input [1:0] a; output [1:0] y; m u(a[0], y[0]), v(a[1], y[1]); endmodule",
    ];
    match netlist_of(alloc, &texts, top) {
        Ok(net) => Some(net.bits()),
        Err(_) => None,
    }
}

#[test]
fn texts_outside_the_grammar_are_refused(rt: HostRuntime) -> Result<(), Fail> {
    assert_eq!(rt; first_inside(rt.alloc()), None);
    Ok(())
}

#[test]
fn the_modules_of_two_texts_are_one_design(rt: HostRuntime) -> Result<(), Fail> {
    assert_eq!(rt; bits_of_two(rt.alloc(), b"t"), Some(12));
    assert_eq!(rt; bits_of_two(rt.alloc(), b"m"), Some(4));
    assert_eq!(rt; bits_of_two(rt.alloc(), b"n"), Some(2));
    assert_eq!(rt; bits_of_two(rt.alloc(), b""), None);
    Ok(())
}
