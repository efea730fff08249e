//! Expressions in their contexts: which sizes operands have, and which bits are lost. Values were reckoned by hand.

use crate::running::{Row, first_wrong};
use std::test::Fail;

static SUMS: [Row; 8] = [
    // five bits in the context, also where an operand makes them; four as a part of a concatenation
    (
        "module t(a, b, x, y, z); input [3:0] a, b; output [4:0] x, y, z;
         assign x = {1'b0, a} + b, y = a + b, z = {a + b}; endmodule",
        &[
            (&[9, 9], &[18, 18, 2]),
            (&[15, 1], &[16, 16, 0]),
            (&[15, 15], &[30, 30, 14]),
            (&[3, 4], &[7, 7, 7]),
        ],
    ),
    // a complement, a negative and a difference in eight bits and in four
    (
        "module t(a, b, u, v, w, x, y, z); input [3:0] a, b; output [7:0] u, v, w, x, y, z;
         assign u = ~a, v = {~a}, w = -a, x = {-a}, y = a - b, z = {a - b}; endmodule",
        &[
            (&[5, 2], &[250, 10, 251, 11, 3, 3]),
            (&[2, 5], &[253, 13, 254, 14, 253, 13]),
            (&[0, 1], &[255, 15, 0, 0, 255, 15]),
            (&[15, 15], &[240, 0, 241, 1, 0, 0]),
        ],
    ),
    // a sum that is compared has the size of the two sides, whatever takes the answer
    (
        "module t(a, b, x, y, z); input [3:0] a, b; output [7:0] x, y, z;
         assign x = (a + b) > 4'd9, y = (a + b) > 5'd9, z = (a + b) == 8'd18; endmodule",
        &[
            (&[9, 9], &[0, 1, 1]),
            (&[5, 6], &[1, 1, 0]),
            (&[4, 5], &[0, 0, 0]),
            (&[15, 15], &[1, 1, 0]),
            (&[1, 1], &[0, 0, 0]),
        ],
    ),
    // a carry that is shifted back is there in five bits: by the target, by neither, by an operand
    (
        "module t(a, b, x, y, z); input [3:0] a, b; output [4:0] x; output [3:0] y, z;
         assign x = (a + b) >> 1'b1, y = (a + b) >> 1'b1, z = (a + b + 5'd0) >> 1'b1; endmodule",
        &[
            (&[9, 9], &[9, 1, 9]),
            (&[15, 15], &[15, 7, 15]),
            (&[6, 1], &[3, 3, 3]),
        ],
    ),
    // an amount has its own size: one bit, and two
    (
        "module t(a, s, x, y, z); input [3:0] a; input s; output [3:0] x, y; output [7:0] z;
         assign x = a << s + s, y = a << {1'b0, s} + s, z = a << {s, s}; endmodule",
        &[(&[5, 1], &[5, 4, 40]), (&[5, 0], &[5, 5, 5])],
    ),
    // an amount past all bits
    (
        "module t(a, n, x, y); input [3:0] a; input [3:0] n; output [7:0] x; output [3:0] y;
         assign x = a << n, y = a >> n; endmodule",
        &[
            (&[11, 0], &[11, 11]),
            (&[11, 3], &[88, 1]),
            (&[11, 7], &[128, 0]),
            (&[11, 8], &[0, 0]),
            (&[15, 15], &[0, 0]),
        ],
    ),
    // a narrower target takes the low bits, after the right side was computed in its own size
    (
        "module t(a, b, x, y, z); input [3:0] a, b; output [1:0] x, y; output z;
         assign x = a + b, y = a >> 2'd2, z = a + b; endmodule",
        &[
            (&[9, 9], &[2, 2, 0]),
            (&[3, 4], &[3, 0, 1]),
            (&[12, 1], &[1, 3, 1]),
        ],
    ),
    // a joined target is as wide as its parts
    (
        "module t(a, b, c, s, p, q, r); input [3:0] a, b; output c; output [3:0] s; output p, q, r;
         assign {c, s} = a + b, {p, {q, r}} = a; endmodule",
        &[
            (&[9, 9], &[1, 2, 0, 0, 1]),
            (&[4, 5], &[0, 9, 1, 0, 0]),
            (&[15, 15], &[1, 14, 1, 1, 1]),
        ],
    ),
];

static CHOICES: [Row; 5] = [
    // a condition has its own size, the branches that of the context
    (
        "module t(a, b, s, x, y); input [3:0] a, b; input s; output [4:0] x, y;
         assign x = s + s ? a : b, y = s ? a + b : a - b; endmodule",
        &[
            (&[9, 9, 1], &[9, 18]),
            (&[2, 5, 1], &[5, 7]),
            (&[2, 5, 0], &[5, 29]),
            (&[5, 2, 0], &[2, 3]),
        ],
    ),
    // each value but zero is true; the narrower branch has zeros above
    (
        "module t(a, b, c, y); input [3:0] a; input [7:0] b; input [1:0] c; output [7:0] y;
         assign y = c ? a : b; endmodule",
        &[
            (&[9, 200, 0], &[200]),
            (&[9, 200, 1], &[9]),
            (&[9, 200, 2], &[9]),
            (&[15, 0, 3], &[15]),
        ],
    ),
    // to the right
    (
        "module t(a, b, c, r, s, y); input [3:0] a, b, c; input r, s; output [3:0] y;
         assign y = r ? a : s ? b : c; endmodule",
        &[
            (&[1, 2, 3, 0, 0], &[3]),
            (&[1, 2, 3, 0, 1], &[2]),
            (&[1, 2, 3, 1, 0], &[1]),
            (&[1, 2, 3, 1, 1], &[1]),
        ],
    ),
    // truth is of the whole value: 4 and 2 have no bit in common
    (
        "module t(a, b, u, v, w, x, y); input [3:0] a, b; output u, v; output [3:0] w, x, y;
         assign u = a && b, v = a & b, w = a || b, x = !a, y = ~!a; endmodule",
        &[
            (&[4, 2], &[1, 0, 1, 0, 15]),
            (&[0, 2], &[0, 0, 1, 1, 14]),
            (&[0, 0], &[0, 0, 0, 1, 14]),
            (&[3, 1], &[1, 1, 1, 0, 15]),
        ],
    ),
    // an operand of a truth has its own size, so one and one are zero there
    (
        "module t(s, x, y, z); input s; output x, y; output [1:0] z;
         assign x = s + s && 1'b1, y = !(s + s), z = s + s; endmodule",
        &[(&[1], &[0, 1, 2]), (&[0], &[0, 1, 0])],
    ),
];

static OPERATORS: [Row; 7] = [
    // a complement of an answer of one bit has ones above
    (
        "module t(a, b, x, y, z); input [3:0] a, b; output [3:0] x, y; output [7:0] z;
         assign x = ~(a == b), y = !(a == b), z = a ~^ b; endmodule",
        &[
            (&[6, 6], &[14, 0, 255]),
            (&[12, 10], &[15, 1, 249]),
            (&[15, 0], &[15, 1, 240]),
        ],
    ),
    // reductions of four bits, also of a sum: 9 + 9 is 2
    (
        "module t(a, b, y, s); input [3:0] a, b; output [5:0] y; output [7:0] s;
         assign y = {&a, ~&a, |a, ~|a, ^a, ~^a}, s = ^(a + b); endmodule",
        &[
            (&[0, 0], &[21, 0]),
            (&[15, 1], &[41, 0]),
            (&[9, 9], &[25, 1]),
            (&[7, 1], &[26, 1]),
        ],
    ),
    // the order of the operators
    (
        "module t(a, b, c, w, x, y, z); input [3:0] a, b, c; output [3:0] w, x, y, z;
         assign w = a + b << c, x = a & b == c, y = a | b ^ c & a, z = ~a & b; endmodule",
        &[
            (&[3, 2, 1], &[10, 0, 3, 0]),
            (&[1, 2, 2], &[12, 1, 3, 2]),
            (&[5, 6, 6], &[0, 1, 7, 2]),
            (&[2, 15, 0], &[1, 0, 15, 13]),
        ],
    ),
    // to the left
    (
        "module t(a, b, c, x, y, z); input [3:0] a, b, c; output [3:0] x, y; output z;
         assign x = a - b - c, y = a >> b >> c, z = a < b < c; endmodule",
        &[
            (&[9, 3, 2], &[4, 0, 1]),
            (&[12, 1, 1], &[10, 3, 1]),
            (&[5, 4, 1], &[0, 0, 1]),
            (&[2, 3, 1], &[14, 0, 0]),
        ],
    ),
    // orders without signs
    (
        "module t(a, b, y); input [3:0] a, b; output [5:0] y;
         assign y = {a < b, a <= b, a > b, a >= b, a == b, a !== b}; endmodule",
        &[
            (&[7, 8], &[49]),
            (&[8, 7], &[13]),
            (&[8, 8], &[22]),
            (&[0, 15], &[49]),
        ],
    ),
    // parts have their own sizes, and a repeat is as many of them
    (
        "module t(a, b, x, y, z); input [3:0] a, b; output [7:0] x; output [11:0] y; output [4:0] z;
         assign x = {a, b}, y = {2{a, b[1:0]}}, z = {3{a[0]}}; endmodule",
        &[
            (&[10, 5], &[165, 2665, 0]),
            (&[1, 14], &[30, 390, 7]),
            (&[15, 15], &[255, 4095, 7]),
        ],
    ),
    // one unary operator before another, and a sized constant of more bits
    (
        "module t(a, x, y, z); input [3:0] a; output [3:0] x; output y; output [7:0] z;
         assign x = - ~a, y = ~ ^a, z = a + 8'hF8; endmodule",
        &[
            (&[0], &[1, 1, 248]),
            (&[7], &[8, 0, 255]),
            (&[8], &[9, 0, 0]),
            (&[15], &[0, 1, 7]),
        ],
    ),
];

#[test]
fn sums_in_their_contexts_run_as_reckoned_by_hand(rt: HostRuntime) -> Result<(), Fail> {
    assert_eq!(rt; first_wrong(rt.alloc(), &SUMS)?, None);
    Ok(())
}

#[test]
fn choices_and_truths_run_as_reckoned_by_hand(rt: HostRuntime) -> Result<(), Fail> {
    assert_eq!(rt; first_wrong(rt.alloc(), &CHOICES)?, None);
    Ok(())
}

#[test]
fn operators_run_as_reckoned_by_hand(rt: HostRuntime) -> Result<(), Fail> {
    assert_eq!(rt; first_wrong(rt.alloc(), &OPERATORS)?, None);
    Ok(())
}
