// Bytes and numbers written into a lent text. A store past the text's end does nothing: a writer counts its places to the
// end and asks for room once. Each function answers the place behind what it wrote. It is no `Display`, which would be these same stores behind a formatter: bytes
// go into the text lent, and are counted past its end. Text and place are no struct: the text is lent by name to each call, the place is what a call answers,
// and a struct of the two would be put together anew for each piece whose room a caller tells.
ghost use Rattle.std.specs.Prelude.{◌≡◌, [], ◌∷◌, ◌+◌, ◌^◌, ◌<◌, length};
ghost use Rattle.formula.specs.Decimal.{decimal};
ghost use Rattle.formula.specs.Store.{Stores};

// One byte.
pub fn put(text: &mut [u8], at: usize, byte: u8) -> usize
    requires { at + 1 < 2 ^ 64 }
    ensures { Stores text.old at (byte ∷ []) text.new result }
{
    if at < text.len() {
        text[at] = byte;
        return at + 1;
    }
    at + 1
}

// The bytes of a slice, in order.
pub fn write_bytes(text: &mut [u8], at: usize, bytes: &[u8]) -> usize
    requires { at + length bytes.now < 2 ^ 64 }
    ensures { Stores text.old at bytes.now text.new result }
{
    let mut next = at;
    for byte in bytes {
        next = put(text, next, *byte);
    }
    next
}

// The digit of a number below 10.
fn digit(n: usize) -> u8
    requires { n < 10 }
    ensures { result ≡ 48 + n }
{
    48 + n as u8
}

// A number in decimal digits: those before the last one are those of a tenth.
pub fn write_number(text: &mut [u8], at: usize, n: usize) -> usize
    requires { at + length (decimal n) < 2 ^ 64 }
    ensures { Stores text.old at (decimal n) text.new result }
{
    if n < 10 {
        return put(text, at, digit(n));
    }
    let next = write_number(text, at, n / 10);
    put(text, next, digit(n % 10))
}
