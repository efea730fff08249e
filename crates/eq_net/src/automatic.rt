//! Names that tools make.

ghost use Rattle.std.specs.Prelude.{◌≡◌};
ghost use Rattle.std.specs.List.{list_all};
ghost use Rattle.eq_net.specs.Automatic.{is_automatic as is_automatic_of, is_digit};

fn are_digits(text: &[u8]) -> bool
    ensures { result ≡ list_all is_digit text.now }
{
    text.iter().all(|byte| (b'0'..=b'9').contains(byte))
}

/// Whether a tool made a net's own name: it is `_`, one digit or more, `_`.
pub fn is_automatic(name: &[u8]) -> bool
    ensures { result ≡ is_automatic_of name.now }
{
    if name.len() <= 2 {
        return false;
    }
    let last = name.len() - 1;
    name[0] == b'_' && name[last] == b'_' && are_digits(&name[1..last])
}
