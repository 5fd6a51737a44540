// The bytes that a field writes: those of its text, in which \n, \r, \t, \0 and \x with two hexadecimal digits stand for one byte each.
ghost use Rattle.std.specs.Prelude.{◌≡◌, ◌<◌, ◌↔◌, [], ◌∷◌, length, IsNone, IfSome, IfOk};
ghost use Rattle.std.specs.Iterator.{at_most, YieldsFirst};
ghost use Rattle.caselist.specs.Escapes.{digit_value, unescaped};

use std::alloc::{AllocError, Global};

// The number that a hexadecimal digit writes, 0 for what is none.
fn digit(byte: u8) -> u8
    ensures bound { result < 16 }
    ensures value { result ≡ digit_value byte }
{
    match byte {
        b'0'..=b'9' => byte - b'0',
        b'a'..=b'f' => byte - b'a' + 10,
        _ => 0,
    }
}

// The byte that a text begins with, and what is left behind it. Another backslash stands for itself.
#[tactic(auto, using(crate::proofs::Escapes::unescaping))]
fn first_byte(text: &[u8]) -> Option<(u8, &[u8])>
    ensures empty { IsNone result ↔ (text.now ≡ []) }
    ensures byte { IfSome result (λ first. unescaped text.now ≡ first.0 ∷ unescaped first.1.now) }
    ensures shorter { IfSome result (λ first. length first.1.now < length text.now) }
{
    match text {
        [] => None,
        [b'\\', b'n', rest @ ..] => Some((b'\n', rest)),
        [b'\\', b'r', rest @ ..] => Some((b'\r', rest)),
        [b'\\', b't', rest @ ..] => Some((b'\t', rest)),
        [b'\\', b'0', rest @ ..] => Some((b'\0', rest)),
        [b'\\', b'x', high, low, rest @ ..] => Some((16 * digit(*high) + digit(*low), rest)),
        [byte, rest @ ..] => Some((*byte, rest)),
    }
}

// What is left of a field.
#[derive(Drop)]
struct Escaped<'a>(&'a [u8]);

impl Iterator for Escaped<'_> {
    type Item = u8;

    ghost next_gives = { YieldsFirst (λ s. unescaped s.0.now) };

    ghost remaining = { λ s. at_most (length s.0.now) };

    #[tactic(auto, using(crate::proofs::Escapes::unescaped_empty))]
    fn next(&mut self) -> Option<u8> {
        let Some((byte, rest)) = first_byte(self.0) else {
            return None;
        };
        self.0 = rest;
        Some(byte)
    }
}

// The bytes of a field.
pub fn bytes(alloc: Global, field: &str) -> Result<Vec<u8>, AllocError>
    ensures { IfOk result (λ v. v.items ≡ unescaped field.now) }
{
    Escaped(field.as_bytes()).collect(alloc)
}

#[cfg(test)]
mod tests {
    use super::*;
    use std::test::Fail;

    #[test]
    fn a_field_is_read(rt: HostRuntime) -> Result<(), Fail> {
        let found = bytes(rt.alloc(), "a\\n\\r\\t\\0\\x4fz\\q\\x4")?;
        let wanted = [97, 10, 13, 9, 0, 79, 122, 92, 113, 92, 120, 52];
        assert_eq!(rt; found.as_slice(), wanted.as_slice());
        Ok(())
    }
}
