// A file's reading, call by call: what a call of `read` came to, and what is done after it. No call is made here, so every
// answer is determined by the contracts: a file is as read only where its end was seen or the buffer is full.
ghost use Rattle.std.specs.Prelude.{◌≡◌};
ghost use Rattle.files.specs.Reading.{outcome_of, after_outcome, after_read, placed};

// The error number of a call that was interrupted, and that of one whose device failed.
pub const EINTR: i32 = 4;

pub const EIO: i32 = 5;

// What a call of `read` came to.
#[derive(Clone, Copy)]
pub enum Outcome {
    Moved(usize),
    Interrupted,
    Failed,
}

// How far the reading of a file has come: it goes on at a place with so many tries left for calls that are interrupted, it is
// whole with so many bytes, or the file is unreadable.
#[derive(Clone, Copy)]
pub enum Reading {
    On { at: usize, tries: usize },
    Whole(usize),
    Unreadable,
}

// The outcome by the count that the call answered and the error number after it: all that is asked of their signs.
#[tactic(auto, using(crate::proofs::Signed::count_told, crate::proofs::Signed::interruption_told, crate::proofs::Signed::failure_told))]
pub fn outcome_of(got: isize, error: i32) -> Outcome
    ensures { result ≡ outcome_of got error }
{
    if 0 <= got {
        return Outcome::Moved(got as usize);
    }
    if error == EINTR {
        return Outcome::Interrupted;
    }
    Outcome::Failed
}

// The reading after `count` bytes more, not 0, were put at `at` into a buffer of `room` bytes.
fn placed(count: usize, at: usize, room: usize, tries: usize) -> Reading
    ensures { result ≡ placed count at room tries }
{
    if room < at {
        return Reading::Unreadable;
    }
    if count < room - at {
        return Reading::On {
            at: at + count,
            tries,
        };
    }
    if room - at < count {
        return Reading::Unreadable;
    }
    Reading::Whole(room)
}

// The reading after a call that was to read on at `at`, by the call's outcome.
fn after_outcome(outcome: Outcome, at: usize, room: usize, tries: usize) -> Reading
    ensures { result ≡ after_outcome outcome at room tries }
{
    match outcome {
        Outcome::Moved(count) => {
            if count == 0 {
                return Reading::Whole(at);
            }
            placed(count, at, room, tries)
        }
        Outcome::Interrupted => {
            if tries == 0 {
                return Reading::Unreadable;
            }
            Reading::On {
                at,
                tries: tries - 1,
            }
        }
        Outcome::Failed => Reading::Unreadable,
    }
}

// The reading after a call that was to read on at `at`: the count that it answered, the error number after it, the bytes read
// so far, the buffer's length, and the tries left.
pub fn after_read(got: isize, error: i32, at: usize, room: usize, tries: usize) -> Reading
    ensures { result ≡ after_read got error at room tries }
{
    after_outcome(outcome_of(got, error), at, room, tries)
}
