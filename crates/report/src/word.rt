// The words of the reasons: their list, and a word written into a lent buffer.
ghost use Rattle.std.specs.Prelude.{◌≡◌, true, ◌+◌, ◌^◌, ◌<◌, ◌≤◌, length};
ghost use Rattle.formula.specs.Refusal.{table, word};
ghost use Rattle.formula.specs.Store.{Stores};
ghost use Rattle.report.specs.Word.{filled, word_in};

use formula::decimal::write_bytes;
use formula::refusal::Reason;

// The words in the order of their numbers, filled up with dots, which no word holds. No reason has 21 or 22.
const WORDS: [[u8; 14]; 23] = [
    *b"headless......",
    *b"oversized.....",
    *b"no room.......",
    *b"bad token.....",
    *b"out of range..",
    *b"bound twice...",
    *b"unbound.......",
    *b"clash.........",
    *b"unfinished....",
    *b"miscount......",
    *b"no trailer....",
    *b"other formula.",
    *b"broken step...",
    *b"not earlier...",
    *b"wrong pivot...",
    *b"tautology.....",
    *b"blocked.......",
    *b"misstated.....",
    *b"no conclusion.",
    *b"not universal.",
    *b"..............",
    *b"..............",
    *b"afterword.....",
];

// The list against the table.
fn words() -> [[u8; 14]; 23]
    ensures { filled result table ≡ true }
{
    WORDS
}

// How many bytes stand before the first dot.
fn undotted(bytes: &[u8]) -> usize
    ensures { result ≡ length (word_in bytes.now) }
{
    bytes.iter().take_while(|b| **b != b'.').count()
}

// The word of a reason. Answers the place behind it.
pub fn write_word(line: &mut [u8], at: usize, reason: Reason) -> usize
    requires { at + 14 < 2 ^ 64 }
    ensures stores { Stores line.old at (word reason) line.new result }
    ensures upper_bound { result ≤ at + 14 }
{
    let rows = words();
    let bytes = rows[reason.number() as usize - 1];
    let length = undotted(&bytes);
    write_bytes(line, at, &bytes[..length])
}
