//! What designs are refused for. The top is the module `t`.

use crate::reading::{Fault, netlist_of};
use eq_elab::{ElabErr, ElabKind};
use std::alloc::Global;

/// A text, and the kind and the name of its refusal.
pub(crate) type Row = (&'static str, ElabKind, &'static str);

/// Whether a design is refused for this, with this name.
fn is_refused(alloc: Global, row: &Row) -> bool {
    let texts = [row.0.as_bytes()];
    match netlist_of(alloc, &texts, b"t") {
        Err(Fault::Refused(ElabErr::At { kind, name })) => {
            kind == row.1 && name.bytes() == row.2.as_bytes()
        }
        _ => false,
    }
}

/// The first row that isn't right.
pub(crate) fn first_wrong(alloc: Global, rows: &[Row]) -> Option<usize> {
    for (place, row) in rows.iter().enumerate() {
        if !is_refused(alloc, row) {
            return Some(place);
        }
    }
    None
}
