// Clearing a buffer from a place on; and the end of a writing.
ghost use Rattle.std.specs.Prelude.{◌≡◌};
ghost use Rattle.formula.specs.Clear.{clear_from, Keeps};

// The elements from a place on become zero.
pub fn clear_tail<T: Copy>(buffer: &mut [T], from: usize, zero: T)
    ensures { buffer.new ≡ clear_from zero from buffer.old }
{
    for i in from..buffer.len() {
        buffer[i] = zero;
    }
}

// The end of a writing: answers whether what was written has room, and clears what is not used of the buffer, all of it where
// there is no room. `used` may be past the buffer's end, which no slice would say.
pub fn keep_used(buffer: &mut [u8], used: usize) -> bool
    ensures { Keeps buffer.old used result buffer.new }
{
    if used <= buffer.len() {
        clear_tail(buffer, used, 0);
        return true;
    }
    clear_tail(buffer, 0, 0);
    false
}
