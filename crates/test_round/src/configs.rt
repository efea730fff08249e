//! Configurations of lines behind a frame.

ghost use Rattle.std.specs.Prelude.{IfOk, IfSome};
ghost use Rattle.eq_config.specs.Configs.{IsConfig};

use eq_config::{Config, read_config};
use std::alloc::Global;
use std::test::Fail;

/// Two sides with the top `t`, and a strategy.
const FRAME: &[u8] =
    b"[gold]\nread_verilog a\nprep -top t\n[gate]\nread_verilog b\nprep -top t\n[strategy s]\nuse sat\n";

/// The configuration of the frame with further lines, if there is one.
pub fn config(alloc: Global, lines: &[u8]) -> Result<Option<Config>, Fail>
    ensures { IfOk result (λ found. IfSome found IsConfig) }
{
    let mut text = Vec::from_slice(alloc, FRAME)?;
    text.extend_from_slice(lines)?;
    if 67_108_864 < text.len() {
        return Ok(None);
    }
    match read_config(alloc, &text) {
        Ok(config) => Ok(Some(config)),
        Err(_) => Ok(None),
    }
}
