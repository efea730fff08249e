//! Sources and their trees.

use crate::reading::{Row, first_wrong};
use std::test::Fail;

/// A text, and its tree.
static TREES: [Row; 49] = [
    ("", ""),
    ("module m; endmodule", "[m()]"),
    (
        "module m; endmodule module n(); endmodule module m(a); endmodule",
        "[m()][n()][m(a)]",
    ),
    (
        r"module \m+ (\a[0] ); wire \wire ; endmodule",
        "[m+(a[0]) (Wire wire)]",
    ),
    // headers
    ("module m(a, b, a); endmodule", "[m(a b a)]"),
    (
        "module m(a, q); output q; input a; endmodule",
        "[m(a q) (Output q) (Input a)]",
    ),
    ("module m(input a); endmodule", "[m(a) (Input a)]"),
    ("module m(output y); endmodule", "[m(y) (Output y)]"),
    (
        "module m(input wire a, output wire y); endmodule",
        "[m(a y) (Input a) (Output y)]",
    ),
    (
        "module m(input [3:0] a, input wire [7:4] b); endmodule",
        "[m(a b) (Input.3.0 a) (Input.7.4 b)]",
    ),
    (
        "module m(output [0:0] y, output wire [0:2] z); endmodule",
        "[m(y z) (Output.0.0 y) (Output.0.2 z)]",
    ),
    (
        "module m(output reg q); endmodule",
        "[m(q) (Output q) (Reg q)]",
    ),
    (
        "module m(output reg q = 1'h1); endmodule",
        "[m(q) (Output q) (Reg q) (Init q 1'1)]",
    ),
    (
        "module m(output reg [1:0] r = 2'd2, output reg [1:0] s, input a); endmodule",
        "[m(r s a) (Output.1.0 r) (Reg.1.0 r) (Init r 2'2) (Output.1.0 s) (Reg.1.0 s) (Input a)]",
    ),
    (
        "module m(input [3:0] a, b, c, input wire d, e); endmodule",
        "[m(a b c d e) (Input.3.0 a) (Input.3.0 b) (Input.3.0 c) (Input d) (Input e)]",
    ),
    (
        "module m(output y, z, output wire [1:0] v, w); endmodule",
        "[m(y z v w) (Output y) (Output z) (Output.1.0 v) (Output.1.0 w)]",
    ),
    (
        "module m(output reg [1:0] q = 2'h3, r, input c, d); endmodule",
        "[m(q r c d) (Output.1.0 q) (Reg.1.0 q) (Init q 2'3) (Output.1.0 r) (Reg.1.0 r) (Input c) (Input d)]",
    ),
    (
        "module m(input a, output y); wire w; assign y = w; endmodule",
        "[m(a y) (Input a) (Output y) (Wire w) (Assign y w)]",
    ),
    // inputs and outputs
    (
        "module m; input a; input wire b; endmodule",
        "[m() (Input a) (Input b)]",
    ),
    (
        "module m; input [3:0] c, d; input wire [1:2] e, f; endmodule",
        "[m() (Input.3.0 c) (Input.3.0 d) (Input.1.2 e) (Input.1.2 f)]",
    ),
    (
        "module m; output a; output wire b, c; endmodule",
        "[m() (Output a) (Output b) (Output c)]",
    ),
    (
        "module m; output [3:0] d; output wire [1:0] e, f; endmodule",
        "[m() (Output.3.0 d) (Output.1.0 e) (Output.1.0 f)]",
    ),
    (
        "module m; output reg q; output reg a, b = 1'h1, c; endmodule",
        "[m() (Output q) (Reg q) (Output a) (Reg a) (Output b) (Reg b) (Init b 1'1) (Output c) (Reg c)]",
    ),
    (
        "module m; output reg [1:0] d = 2'h1, e = 2'h2; endmodule",
        "[m() (Output.1.0 d) (Reg.1.0 d) (Init d 2'1) (Output.1.0 e) (Reg.1.0 e) (Init e 2'2)]",
    ),
    // registers and wires
    (
        "module m; reg q; reg a, b = 1'h0, c; reg [1:0] d = 2'h1, e; endmodule",
        "[m() (Reg q) (Reg a) (Reg b) (Init b 1'0) (Reg c) (Reg.1.0 d) (Init d 2'1) (Reg.1.0 e)]",
    ),
    (
        "module m; wire a; wire [3:0] b, c = a & b, d; endmodule",
        "[m() (Wire a) (Wire.3.0 b) (Wire.3.0 c) (Assign c (And a b)) (Wire.3.0 d)]",
    ),
    (
        "module m; wire e = 1'h1, f = {a, e}; endmodule",
        "[m() (Wire e) (Assign e 1'1) (Wire f) (Assign f { a e})]",
    ),
    // assignments
    ("module m; assign a = b; endmodule", "[m() (Assign a b)]"),
    (
        "module m; assign a = b, c[1] = d, e[3:0] = f, {g, h[2]} = i ? j : k; endmodule",
        "[m() (Assign a b) (Assign c.1 d) (Assign e.3.0 f) (Assign { g h.2} (? i j k))]",
    ),
    // gates
    (
        "module m; and (y, a); nand (y, a); or (y, a); nor (y, a); xor (y, a); xnor (y, a); buf (y, a); not (y, a); endmodule",
        "[m() (And: y a) (Nand: y a) (Or: y a) (Nor: y a) (Xor: y a) (Xnor: y a) (Buf: y a) (Not: y a)]",
    ),
    (
        "module m; and a(y); nand b(y); or c(y); nor d(y); xor e(y); xnor f(y); buf g(y); not h(y); endmodule",
        "[m() (And:a y) (Nand:b y) (Or:c y) (Nor:d y) (Xor:e y) (Xnor:f y) (Buf:g y) (Not:h y)]",
    ),
    (
        "module m; or (y, a, b[1]), g(y, a ^ b), (z, {c, d}); endmodule",
        "[m() (Or: y a b.1) (Or:g y (Xor a b)) (Or: z { c d})]",
    ),
    // instances
    (
        "module m; sub u(a); sub v(a, b & c, 1'h0); endmodule",
        "[m() (sub:u a) (sub:v a (And b c) 1'0)]",
    ),
    (
        "module m; sub u(,); sub u(a,,b); sub u(, a); sub u(a,); endmodule",
        "[m() (sub:u - -) (sub:u a - b) (sub:u - a) (sub:u a -)]",
    ),
    (
        "module m; sub u(.p(a)); sub u(.p(a | b), .q(), .r(c[1])); endmodule",
        "[m() (sub:u .p(a)) (sub:u .p((Or a b)) .q() .r(c.1))]",
    ),
    ("module m; sub u(); endmodule", "[m() (sub:u)]"),
    (
        "module m; sub u(a), v(), w(.p()), x(,); endmodule",
        "[m() (sub:u a) (sub:v) (sub:w .p()) (sub:x - -)]",
    ),
    // always
    (
        "module m; always @(posedge c) q <= d; endmodule",
        "[m() (Always c (q <= d))]",
    ),
    (
        "module m; always @(posedge k[3]) begin q <= d; if (a) ; else r <= e; end endmodule",
        "[m() (Always k.3 (begin (q <= d) (if a ; else (r <= e))))]",
    ),
    (
        "module m; always @(posedge c) if (a) if (b) ; else q <= d; wire w; endmodule",
        "[m() (Always c (if a (if b ; else (q <= d)))) (Wire w)]",
    ),
    (
        "module m; always @(posedge c) ; always @(posedge d) begin end endmodule",
        "[m() (Always c ;) (Always d (begin))]",
    ),
    // initial values
    (
        "module m; initial q = 1'h0; initial r[2] = 1'h1; initial {s, t[1:0]} = 3'd5; endmodule",
        "[m() (Init q 1'0) (Init r.2 1'1) (Init { s t.1.0} 3'5)]",
    ),
    (
        "module m; initial begin q = 1'h0; r[1:0] = 2'h3; end endmodule",
        "[m() (Init q 1'0) (Init r.1.0 2'3)]",
    ),
    ("module m; initial begin end endmodule", "[m()]"),
    (
        "module m; wire a, b; input c; sub u(a), v(b); and (a, c); endmodule module n; reg q; endmodule",
        "[m() (Wire a) (Wire b) (Input c) (sub:u a) (sub:v b) (And: a c)][n() (Reg q)]",
    ),
    // where an expression or a statement ends
    (
        "module m; assign y = a; wire b; endmodule",
        "[m() (Assign y a) (Wire b)]",
    ),
    (
        "module m; assign y = a, b = c; endmodule",
        "[m() (Assign y a) (Assign b c)]",
    ),
    (
        "module m; always @(posedge c) a <= b <= c; d e(); endmodule",
        "[m() (Always c (a <= (Le b c))) (d:e)]",
    ),
    (
        "module m; always @(posedge c) if (a) b <= c; d e(); endmodule",
        "[m() (Always c (if a (b <= c))) (d:e)]",
    ),
];

#[test]
fn sources_have_their_trees(rt: HostRuntime) -> Result<(), Fail> {
    assert_eq!(rt;
        first_wrong(rt.alloc(), &TREES, &["", ""], &["", ""])?,
        None
    );
    Ok(())
}
