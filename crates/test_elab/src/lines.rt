//! The lines of small netlists.

use crate::types::{Form, Line};
use eq_net::Dir;

/// A line: name, highest bit of an input's range, direction, form, the net that it reads, rank.
macro_rules! line {
    ($name:literal, $wide:literal, $dir:ident, $form:ident, $reads:literal, $rank:literal) => {
        Line {
            name: $name,
            wide: $wide,
            dir: Dir::$dir,
            form: Form::$form,
            reads: $reads,
            rank: $rank,
        }
    };
}

/// `y` is `a`.
pub const WIRES: [Line; 2] = [
    line!(b"a", 0, Input, Copy, 0, 0),
    line!(b"y", 0, Output, Copy, 0, 1),
];

/// With two inputs between them.
pub const MORE: [Line; 4] = [
    line!(b"a", 0, Input, Copy, 0, 0),
    line!(b"b", 0, Input, Copy, 0, 0),
    line!(b"c", 0, Input, Copy, 0, 0),
    line!(b"y", 0, Output, Copy, 0, 1),
];

/// Other names.
pub const RENAMED: [Line; 2] = [
    line!(b"b", 0, Input, Copy, 0, 0),
    line!(b"x", 0, Output, Copy, 0, 1),
];

/// Both directions are turned, and one input more: `a` is `y`.
pub const REVERSED: [Line; 3] = [
    line!(b"a", 0, Output, Copy, 1, 1),
    line!(b"y", 0, Input, Copy, 0, 0),
    line!(b"b", 0, Input, Copy, 0, 0),
];

/// The other order of the header.
pub const TURNED: [Line; 2] = [
    line!(b"y", 0, Output, Copy, 1, 1),
    line!(b"a", 0, Input, Copy, 0, 0),
];

/// `a` has another width, and `y` another direction.
pub const TWO_INPUTS: [Line; 2] = [
    line!(b"a", 1, Input, Copy, 0, 0),
    line!(b"y", 0, Input, Copy, 0, 0),
];

/// Two inputs of another width than in `MORE`.
pub const WIDER: [Line; 4] = [
    line!(b"a", 0, Input, Copy, 0, 0),
    line!(b"b", 1, Input, Copy, 0, 0),
    line!(b"c", 2, Input, Copy, 0, 0),
    line!(b"y", 0, Output, Copy, 0, 1),
];

/// A register that follows `a`, seen as `y`.
pub const STORED: [Line; 4] = [
    line!(b"clk", 0, Input, Copy, 0, 0),
    line!(b"a", 0, Input, Copy, 0, 0),
    line!(b"y", 0, Output, Copy, 3, 1),
    line!(b"q", 0, Inner, Next, 1, 0),
];

/// The same with another input's width.
pub const STORED_WIDER: [Line; 4] = [
    line!(b"clk", 0, Input, Copy, 0, 0),
    line!(b"a", 1, Input, Copy, 0, 0),
    line!(b"y", 0, Output, Copy, 3, 1),
    line!(b"q", 0, Inner, Next, 1, 0),
];

/// `clk` isn't read.
pub const IGNORING: [Line; 3] = [
    line!(b"clk", 0, Input, Copy, 0, 0),
    line!(b"a", 0, Input, Copy, 0, 0),
    line!(b"y", 0, Output, Copy, 1, 1),
];

/// `clk` stands behind `a`, and `y` is its complement.
pub const INVERTING: [Line; 3] = [
    line!(b"a", 0, Input, Copy, 0, 0),
    line!(b"clk", 0, Input, Copy, 0, 0),
    line!(b"y", 0, Output, Inverted, 1, 1),
];

/// `y` is `clk`, through an instance.
pub const CLOCK_OUT: [Line; 4] = [
    line!(b"clk", 0, Input, Copy, 0, 0),
    line!(b"a", 0, Input, Copy, 0, 0),
    line!(b"y", 0, Output, Copy, 3, 2),
    line!(b"u.c", 0, Inner, Copy, 0, 1),
];

/// An instance has copies of `clk`, the last first, and what reads the last one is the complement.
pub const COPIED_AND_READ: [Line; 6] = [
    line!(b"clk", 0, Input, Copy, 0, 0),
    line!(b"a", 0, Input, Copy, 0, 0),
    line!(b"y", 0, Output, Copy, 1, 1),
    line!(b"u.n", 0, Inner, Inverted, 4, 3),
    line!(b"u.d", 0, Inner, Copy, 5, 2),
    line!(b"u.c", 0, Inner, Copy, 0, 1),
];

/// The same, but nothing reads the last one.
pub const COPIED: [Line; 6] = [
    line!(b"clk", 0, Input, Copy, 0, 0),
    line!(b"a", 0, Input, Copy, 0, 0),
    line!(b"y", 0, Output, Copy, 1, 1),
    line!(b"u.n", 0, Inner, Inverted, 1, 3),
    line!(b"u.d", 0, Inner, Copy, 5, 2),
    line!(b"u.c", 0, Inner, Copy, 0, 1),
];

/// A register's next value is `clk`.
pub const CLOCK_STORED: [Line; 4] = [
    line!(b"clk", 0, Input, Copy, 0, 0),
    line!(b"a", 0, Input, Copy, 0, 0),
    line!(b"y", 0, Output, Copy, 1, 1),
    line!(b"q", 0, Inner, Next, 0, 0),
];

/// `u` has no driver, and nothing reads it.
pub const UNREAD: [Line; 3] = [
    line!(b"a", 0, Input, Copy, 0, 0),
    line!(b"u", 0, Inner, Undriven, 0, 0),
    line!(b"y", 0, Output, Copy, 0, 1),
];

/// `y` reads `u` behind the three bits of `a`, and both `u` and `v` have no driver.
pub const READ_BEHIND: [Line; 4] = [
    line!(b"a", 2, Input, Copy, 0, 0),
    line!(b"v", 0, Inner, Undriven, 0, 0),
    line!(b"y", 0, Output, Inverted, 3, 1),
    line!(b"u", 0, Inner, Undriven, 0, 0),
];

/// The output `y` has no driver.
pub const NO_OUTPUT: [Line; 2] = [
    line!(b"a", 0, Input, Copy, 0, 0),
    line!(b"y", 0, Output, Undriven, 0, 0),
];

/// `x`, an output without driver, stands before `u`, which `y` reads.
pub const OUTPUT_FIRST: [Line; 4] = [
    line!(b"a", 0, Input, Copy, 0, 0),
    line!(b"x", 0, Output, Undriven, 0, 0),
    line!(b"u", 0, Inner, Undriven, 0, 0),
    line!(b"y", 0, Output, Copy, 2, 1),
];

/// `u`, which `y` reads, stands before `x`, an output without driver.
pub const READ_FIRST: [Line; 4] = [
    line!(b"y", 0, Output, Copy, 2, 1),
    line!(b"a", 0, Input, Copy, 0, 0),
    line!(b"u", 0, Inner, Undriven, 0, 0),
    line!(b"x", 0, Output, Undriven, 0, 0),
];

/// The register `q` has `u` as its next value.
pub const NEXT_UNDRIVEN: [Line; 3] = [
    line!(b"a", 0, Input, Copy, 0, 0),
    line!(b"u", 0, Inner, Undriven, 0, 0),
    line!(b"q", 0, Output, Next, 1, 0),
];
