//! Designs at a limit and one past it: bits of a net, bits of an expression, and the cost.

use crate::reading::{Fault, netlist_of};
use crate::refusing::{Row, first_wrong};
use eq_elab::{ElabErr, ElabKind};
use std::alloc::Global;
use std::test::Fail;

/// One past the limits of modules.
static PAST: [Row; 3] = [
    (
        "module t(a, y); input [1024:0] a; output y; assign y = ^a; endmodule",
        ElabKind::BadRange,
        "a",
    ),
    (
        "module t(a, y); input [1023:0] a; output y; assign y = ^{{64{a}}, a[0]}; endmodule",
        ElabKind::BadRange,
        "t",
    ),
    // the cost is at the limit, and two nets have one name
    (
        "module t(a, b, y, z, \\u.w ); input [1023:0] a, b; output [1023:0] y, z; input \\u.w ;
         wire [58:0] w; assign y = a >> b, z = a << b[924:0], w = a[58:0] & b[58:0];
         m u(); endmodule module m; wire [5:0] w; endmodule",
        ElabKind::PathClash,
        "u.w",
    ),
];

/// A text, and what the netlist costs.
type Accepted = (&'static str, u64);

static AT: [Accepted; 4] = [
    // 2, 1,025 bits, and a parity of 1,024
    (
        "module t(a, y); input [1023:0] a; output y; assign y = ^a; endmodule",
        2_051,
    ),
    // 2, 1,025 bits, and a parity of 65,536
    (
        "module t(a, y); input [1023:0] a; output y; assign y = ^{64{a}}; endmodule",
        66_563,
    ),
    // 2, 4,159 bits, 1,024 times 1,024, 1,024 times 925, and 63
    (
        "module t(a, b, y, z); input [1023:0] a, b; output [1023:0] y, z; wire [62:0] w;
         assign y = a >> b, z = a << b[924:0], w = a[62:0] & b[62:0]; endmodule",
        2_000_000,
    ),
    // one instance of one net in the place of two bits
    (
        "module t(a, b, y, z); input [1023:0] a, b; output [1023:0] y, z; wire [61:0] w;
         assign y = a >> b, z = a << b[924:0], w = a[61:0] & b[61:0]; m u(); endmodule
         module m; wire w; endmodule",
        2_000_000,
    ),
];

/// A text, and the number that its refusal tells.
type Large = (&'static str, u64);

static OVER: [Large; 3] = [
    // a bit more, which nothing drives or reads
    (
        "module t(a, b, y, z); input [1023:0] a, b; output [1023:0] y, z; wire [62:0] w; wire v;
         assign y = a >> b, z = a << b[924:0], w = a[62:0] & b[62:0]; endmodule",
        2_000_001,
    ),
    // an instance more, which is empty
    (
        "module t(a, b, y, z); input [1023:0] a, b; output [1023:0] y, z; wire [62:0] w;
         assign y = a >> b, z = a << b[924:0], w = a[62:0] & b[62:0]; m u(); endmodule
         module m; endmodule",
        2_000_001,
    ),
    // before two nets of one name, two drivers and a bit without driver
    (
        "module t(a, b, y, z, \\u.w ); input [1023:0] a, b; output [1023:0] y, z; output \\u.w ;
         assign y = a >> b, z = a << b, y = z; m u(); endmodule module m; wire w; endmodule",
        2_101_253,
    ),
];

fn is_accepted(alloc: Global, row: &Accepted) -> bool {
    let texts = [row.0.as_bytes()];
    match netlist_of(alloc, &texts, b"t") {
        Ok(net) => net.cost() == row.1,
        Err(_) => false,
    }
}

fn is_too_large(alloc: Global, text: &[u8], wanted: u64) -> bool {
    let texts = [text];
    match netlist_of(alloc, &texts, b"t") {
        Err(Fault::Refused(ElabErr::TooLarge { number })) => number == wanted,
        _ => false,
    }
}

/// The first row that isn't accepted.
fn first_refused(alloc: Global) -> Option<usize> {
    for (place, row) in AT.iter().enumerate() {
        if !is_accepted(alloc, row) {
            return Some(place);
        }
    }
    None
}

/// The first row that isn't too large.
fn first_small(alloc: Global) -> Option<usize> {
    for (place, row) in OVER.iter().enumerate() {
        if !is_too_large(alloc, row.0.as_bytes(), row.1) {
            return Some(place);
        }
    }
    None
}

/// A text of so many levels below the top, each of which instantiates the next one twice: 2 ^ (n + 1) - 1 instances of
/// nothing else, which cost one more.
fn doubled(alloc: Global, levels: u32) -> Result<String, Fail> {
    let mut text = String::new(alloc);
    text.push_str("module m0; endmodule ")?;
    for level in 1..levels {
        let below = level - 1;
        let module = format!(in alloc; "module m{level}; m{below} a(), b(); endmodule ")?;
        text.push_str(&module)?;
    }
    let below = levels.saturating_sub(1);
    let top = format!(in alloc; "module t; m{below} a(), b(); endmodule")?;
    text.push_str(&top)?;
    Ok(text)
}

fn is_doubled_so(alloc: Global, levels: u32, number: u64) -> Result<bool, Fail> {
    let text = doubled(alloc, levels)?;
    Ok(is_too_large(alloc, text.as_bytes(), number))
}

#[test]
fn designs_at_a_limit_are_accepted(rt: HostRuntime) -> Result<(), Fail> {
    assert_eq!(rt; first_refused(rt.alloc()), None);
    Ok(())
}

#[test]
fn designs_past_a_limit_of_modules_are_refused(rt: HostRuntime) -> Result<(), Fail> {
    assert_eq!(rt; first_wrong(rt.alloc(), &PAST), None);
    Ok(())
}

#[test]
fn a_design_over_the_limit_is_too_large(rt: HostRuntime) -> Result<(), Fail> {
    assert_eq!(rt; first_small(rt.alloc()), None);
    Ok(())
}

#[test]
fn a_hierarchy_over_the_limit_is_too_large(rt: HostRuntime) -> Result<(), Fail> {
    assert_eq!(rt; is_doubled_so(rt.alloc(), 20, 2_097_152)?, true);
    assert_eq!(rt; is_doubled_so(rt.alloc(), 200, 1_000_000_000)?, true);
    Ok(())
}
