// What every C function on tables, text and proofs does with an answer: fills `out`, and returns 0 or the refusal's number.
ghost use Rattle.std.specs.Prelude.{◌≡◌, [], ◌∷◌};
ghost use Rattle.capi.specs.Codes.{Told, accepted, refused};

use formula::refusal::{Numbers, Refusal};

// An answer: its numbers in `out`, and the code 0.
pub fn accept(out: &mut [u64; 5], a: usize, b: usize, c: usize) -> u32
    ensures { Told (accepted a b c) result out.new }
{
    *out = [a as u64, b as u64, c as u64, 0, 0];
    0
}

// The numbers of a refusal in `out`; `variable` and `block` are of what blocks.
fn fill(out: &mut [u64; 5], refusal: Refusal, variable: usize, block: usize)
    ensures { out.new ≡ refusal.place ∷ refusal.line ∷ refusal.column ∷ variable ∷ block ∷ [] }
{
    *out = [
        refusal.place as u64,
        refusal.line as u64,
        refusal.column as u64,
        variable as u64,
        block as u64,
    ];
}

// A refusal: its place, line and column in `out`, with 17 what blocks, its number as the code.
pub fn refuse(out: &mut [u64; 5], refusal: Refusal) -> u32
    ensures { Told (refused refusal) result out.new }
{
    let reason = refusal.reason;
    match reason.numbers() {
        Numbers::Alone(number) => {
            fill(out, refusal, 0, 0);
            number
        }
        Numbers::Blocked(blocker) => {
            fill(out, refusal, blocker.variable.0, blocker.block);
            17
        }
    }
}
