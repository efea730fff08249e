//! The names of bits.

ghost use Rattle.std.specs.Fmt.{decimal};
ghost use Rattle.std.specs.Prelude.{◌≡◌, ◌++◌, ◌<◌, ◌^◌, ℕ, [], ◌∷◌, IfOk, OnOk, true};
ghost use Rattle.eq_net.specs.Naming.{bit_name, index_of, name_of_bit};
ghost use Rattle.eq_net.specs.Net.{HasBit};
ghost use Rattle.eq_net.specs.Nets.{width_of};

use crate::net::Net;
use crate::types::NetInfo;
use eq_base::{Bytes, Memory};
use eq_names::{BitName, Name};
use std::alloc::{AllocError, Global};

/// The index that a position has in the range of its net.
fn index(net: &NetInfo, position: u32) -> u32
    requires ranged { net.now.ranged ≡ true }
    requires there { position < width_of net.now }
    ensures { result ≡ index_of net.now position }
{
    if net.right <= net.left {
        net.right + position
    } else {
        net.right - position
    }
}

/// Writes a number in decimal at the end.
fn push_decimal(out: &mut Bytes, number: u32) -> Result<(), Memory>
    ensures { OnOk result (out.new ≡ out.old ++ decimal number) }
{
    if number >= 10 {
        push_decimal(out, number / 10)?;
    }
    out.push(b'0' + (number % 10) as u8)?;
    Ok(())
}

/// The bytes of a name, followed by an index in brackets.
fn indexed(alloc: Global, name: &Name, index: u32) -> Result<Bytes, Memory>
    ensures { IfOk result (λ text. text ≡ name.now ++ 0x5B ∷ (decimal index ++ 0x5D ∷ [])) }
{
    let mut text = Bytes::from_slice(alloc, name.bytes())?;
    text.push(b'[')?;
    push_decimal(&mut text, index)?;
    text.push(b']')?;
    Ok(text)
}

/// The name of a position of a net: the net's own name where it has no range, and with its index in brackets where it has one.
pub fn named_position(alloc: Global, net: &NetInfo, position: u32) -> Result<Name, Memory>
    requires { position < width_of net.now }
    ensures { IfOk result (λ name. name ≡ bit_name net.now position) }
{
    if !net.ranged {
        return net.name.copy(alloc);
    }
    let text = indexed(alloc, &net.name, index(net, position))?;
    match Name::read(alloc, text.as_slice()) {
        Ok(name) => Ok(name),
        Err(_) => Err(AllocError),
    }
}

/// The name of a bit: its net's full name, followed by `[i]` with the declared index where the net has a range.
pub fn bit_text(alloc: Global, net: &Net, bit: BitName) -> Result<Name, Memory>
    requires { HasBit net.now.nets bit }
    ensures { IfOk result (λ name. name ≡ name_of_bit net.now.nets bit) }
{
    named_position(alloc, &net.nets.as_slice()[bit.net as usize], bit.bit)
}
