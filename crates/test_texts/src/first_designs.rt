//! Designs of the first form.

use crate::reading::{joined, times};
use eq_first::read_module;
use std::alloc::{AllocError, Global};
use std::test::Fail;

/// A text, and whether it is the design of a module `t`.
static DESIGN_CASES: [(&[u8], bool); 62] = [
    (
        b"module t(input a, input b, output y); assign y = a & b; endmodule",
        true,
    ),
    (
        b"module t(output y, input a); assign y = a; endmodule\n",
        true,
    ),
    (
        b"module\tt\r\n(\x0Cinput a,output\ny ) ;assign y = a ; endmodule ",
        true,
    ),
    (b" module t(input a,output y);assign y=~(a);endmodule", true),
    (b"module t(input _$9,output Y);assign Y=_$9;endmodule", true),
    (
        b"module t ( input a , output y ) ; assign y = ( ~ a ^ ~ a ) | a & a ; endmodule",
        true,
    ),
    (
        b"module t(input a, output y); assign y = a ^ ~a; endmodule",
        true,
    ),
    (
        b"module t(input a, output y); assign y = ~~a; endmodule",
        true,
    ),
    (b"", false),
    (b" \n", false),
    (b"\xFF", false),
    (
        b"module t(input a, output y); assign y = a; endmodule\xFF",
        false,
    ),
    (
        b"module t(input a, output y); assign y = a; endmodule;",
        false,
    ),
    (
        b"module t(input a, output y); assign y = a; endmodule module",
        false,
    ),
    (b"module t(input a, output y); assign y = a; ", false),
    (
        b"module t(input a, output y); assign y = a endmodule",
        false,
    ),
    (
        b"module t(input a, output y) assign y = a; endmodule",
        false,
    ),
    (b"module t(input a, output y); assign y a; endmodule", false),
    (b"module t(input a, output y); y = a; endmodule", false),
    (
        b"module t(input a, output y); assign y = ; endmodule",
        false,
    ),
    (b"module t(input a, output y); endmodule", false),
    (
        b"module t(input a, output y); assign y = a; assign y = a; endmodule",
        false,
    ),
    (
        b"module t(input a output y); assign y = a; endmodule",
        false,
    ),
    (
        b"module t(input a, output y,); assign y = a; endmodule",
        false,
    ),
    (
        b"module t(, input a, output y); assign y = a; endmodule",
        false,
    ),
    (
        b"module t(input a, b, output y); assign y = a; endmodule",
        false,
    ),
    (
        b"module t(input wire a, output y); assign y = a; endmodule",
        false,
    ),
    (
        b"module t(inout a, output y); assign y = a; endmodule",
        false,
    ),
    (
        b"module t(input [0:0] a, output y); assign y = a; endmodule",
        false,
    ),
    (b"module t(); assign y = a; endmodule", false),
    (b"module t; assign y = a; endmodule", false),
    (
        b"module u(input a, output y); assign y = a; endmodule",
        false,
    ),
    (
        b"module T(input a, output y); assign y = a; endmodule",
        false,
    ),
    (
        b"modulet(input a, output y); assign y = a; endmodule",
        false,
    ),
    (
        b"module t(inputa, output y); assign y = a; endmodule",
        false,
    ),
    (
        b"Module t(input a, output y); assign y = a; endmodule",
        false,
    ),
    (
        b"module t(input and, output y); assign y = and; endmodule",
        false,
    ),
    (
        b"module t(input a, output endmodule); assign endmodule = a; endmodule",
        false,
    ),
    (
        b"module t(input casex, output y); assign y = casex; endmodule",
        false,
    ),
    (
        b"module t(input 9a, output y); assign y = 9a; endmodule",
        false,
    ),
    (
        b"module t(input $a, output y); assign y = $a; endmodule",
        false,
    ),
    (
        b"module t(input \\a , output y); assign y = \\a ; endmodule",
        false,
    ),
    (
        b"module t(input a, input a, output y); assign y = a; endmodule",
        false,
    ),
    (
        b"module t(input a, output a); assign a = a; endmodule",
        false,
    ),
    (
        b"module t(input a, output x, output y); assign y = a; endmodule",
        false,
    ),
    (
        b"module t(input a, input y); assign y = a; endmodule",
        false,
    ),
    (
        b"module t(input a, output y); assign a = a; endmodule",
        false,
    ),
    (
        b"module t(input a, output y); assign z = a; endmodule",
        false,
    ),
    (
        b"module t(input a, output y); assign y = b; endmodule",
        false,
    ),
    (
        b"module t(input a, output y); assign y = y; endmodule",
        false,
    ),
    (
        b"module t(input a, output y); assign y = a /* b */; endmodule",
        false,
    ),
    (
        b"module t(input a, output y); assign y = a; endmodule // t",
        false,
    ),
    (
        b"module t(input a, output y); assign y = a ^~ a; endmodule",
        false,
    ),
    (
        b"module t(input a, output y); assign y = a ~^ a; endmodule",
        false,
    ),
    (
        b"module t(input a, output y); assign y = a && a; endmodule",
        false,
    ),
    (
        b"module t(input a, output y); assign y = ~&a; endmodule",
        false,
    ),
    (
        b"module t(input a, output y); assign y = a + a; endmodule",
        false,
    ),
    (
        b"module t(input a, output y); assign y = 1'b0; endmodule",
        false,
    ),
    (
        b"module t(input a, output y); assign y = (a; endmodule",
        false,
    ),
    (
        b"module t(input a, output y); assign y = a); endmodule",
        false,
    ),
    (
        b"module t(input a, output y); assign y = (); endmodule",
        false,
    ),
    (
        b"module t(input a, output y); assign y = a a; endmodule",
        false,
    ),
];

/// Whether a text is the design of a module `t`.
pub(crate) fn is_taken(alloc: Global, text: &[u8]) -> Result<bool, AllocError> {
    Ok(read_module(alloc, text, b"t")?.is_some())
}

/// The first text that is taken and shouldn't be, or the other way round.
fn first_wrong(alloc: Global) -> Result<Option<usize>, AllocError> {
    for (row, (text, taken)) in DESIGN_CASES.iter().enumerate() {
        if is_taken(alloc, text)? != *taken {
            return Ok(Some(row));
        }
    }
    Ok(None)
}

#[test]
fn designs_are_taken_and_refused(rt: HostRuntime) -> Result<(), Fail> {
    assert_eq!(rt; first_wrong(rt.alloc())?, None);
    Ok(())
}

/// Whether a design with an input of a name of so many bytes is taken.
fn name_is_taken(alloc: Global, bytes: usize) -> Result<bool, AllocError> {
    let name = times(alloc, "n", bytes)?;
    let parts = [
        "module t(input ",
        &name,
        ", output y); assign y = ",
        &name,
        "; endmodule",
    ];
    let text = joined(alloc, &parts)?;
    is_taken(alloc, text.as_bytes())
}

#[test]
fn names_of_designs_have_at_most_1024_bytes(rt: HostRuntime) -> Result<(), Fail> {
    assert!(rt; name_is_taken(rt.alloc(), 1024)?);
    assert!(rt; !name_is_taken(rt.alloc(), 1025)?);
    Ok(())
}
