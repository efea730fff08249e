//! Always items that run at two edges or at none of the outside, and clocks that are read.

use crate::refusing::{Row, first_wrong};
use eq_elab::ElabKind;
use std::test::Fail;

/// Names of events.
static ASTRAY: [Row; 9] = [
    (
        "module t(c, d); input c, d; reg p = 1'b0, q = 1'b0;
         always @(posedge c) p <= ~p; always @(posedge d) q <= ~q; endmodule",
        ElabKind::TwoClocks,
        "d",
    ),
    // an edge that isn't the top's input, or one of a range
    (
        "module t(c, d); input c, d; wire w; assign w = c & d; reg q = 1'b0;
         always @(posedge w) q <= ~q; endmodule",
        ElabKind::TwoClocks,
        "w",
    ),
    (
        "module t(c); input [1:0] c; reg q = 1'b0; always @(posedge c[1]) q <= ~q; endmodule",
        ElabKind::TwoClocks,
        "c[1]",
    ),
    (
        "module t(c); input [0:0] c; reg q = 1'b0; always @(posedge c) q <= ~q; endmodule",
        ElabKind::TwoClocks,
        "c[0]",
    ),
    // position 0 of an event without a select
    (
        "module t(c); input c; wire [1:0] w; assign w = {c, ~c}; reg q = 1'b0;
         always @(posedge w) q <= ~q; endmodule",
        ElabKind::TwoClocks,
        "w[0]",
    ),
    // a bit without driver, and a complement
    (
        "module t; wire w; reg q = 1'b0; always @(posedge w) q <= ~q; endmodule",
        ElabKind::TwoClocks,
        "w",
    ),
    (
        "module t(c); input c; wire w; not (w, c); reg p = 1'b0, q = 1'b0;
         always @(posedge c) p <= ~p; always @(posedge w) q <= ~q; endmodule",
        ElabKind::TwoClocks,
        "w",
    ),
    // an input of an instance, where it isn't connected to the clock
    (
        "module t(c, d); input c, d; m u(c), v(d); endmodule
         module m(i); input i; reg q = 1'b0; always @(posedge i) q <= ~q; endmodule",
        ElabKind::TwoClocks,
        "v.i",
    ),
    // the first of two that are astray
    (
        "module t(c, d, e); input c, d, e; reg p = 1'b0, q = 1'b0, r = 1'b0;
         always @(posedge c) p <= ~p; always @(posedge e) q <= ~q; always @(posedge d) r <= ~r;
         endmodule",
        ElabKind::TwoClocks,
        "e",
    ),
];

/// Names of bits that take the clock.
static READ: [Row; 5] = [
    (
        "module t(c, y); input c; output y; reg q = 1'b0; always @(posedge c) q <= ~q;
         assign y = q & c; endmodule",
        ElabKind::ClockAsData,
        "y",
    ),
    // by a register, and by a condition
    (
        "module t(c); input c; reg q = 1'b0; always @(posedge c) q <= c; endmodule",
        ElabKind::ClockAsData,
        "q",
    ),
    (
        "module t(c); input c; reg q = 1'b0; always @(posedge c) if (c) q <= ~q; endmodule",
        ElabKind::ClockAsData,
        "q",
    ),
    // a copy of the clock that is an output
    (
        "module t(c, y); input c; output y; reg q = 1'b0; always @(posedge c) q <= ~q;
         assign y = c; endmodule",
        ElabKind::ClockAsData,
        "y",
    ),
    // the first of two bits
    (
        "module t(c, y, z); input c; output z, y; reg q = 1'b0; always @(posedge c) q <= ~q;
         assign z = ~c, y = ~c; endmodule",
        ElabKind::ClockAsData,
        "y",
    ),
];

#[test]
fn events_of_no_clock_or_of_a_second_one_are_refused(rt: HostRuntime) -> Result<(), Fail> {
    assert_eq!(rt; first_wrong(rt.alloc(), &ASTRAY), None);
    Ok(())
}

#[test]
fn clocks_that_are_read_are_refused(rt: HostRuntime) -> Result<(), Fail> {
    assert_eq!(rt; first_wrong(rt.alloc(), &READ), None);
    Ok(())
}
