// Opposite literals of two antecedents, long-distance (02, P14): one in each, apart from the pivot, is let be where the variable is a universal right of
// the pivot. Looked for with the marks of one antecedent; the flags of those universals are filled in only where a pair is met.
ghost use Rattle.std.specs.Prelude.{◌≡◌, ◌≤◌, length, take, pos, neg_ℤ};
ghost use Rattle.bits.specs.Flags.{flags};
ghost use Rattle.formula.specs.Held.{prefix_in};
ghost use Rattle.inference.specs.Clause.{words_of};
ghost use Rattle.inference.specs.Words.{without, InRange};
ghost use Rattle.inference.specs.Steps.{crosses};
ghost use Rattle.inference.specs.Scope.{mergeable_in};
ghost use Rattle.inference.specs.Marks.{marks_in, alone};
ghost use Rattle.checker.specs.Merge.{crosses_by, crosses_marks, merge_at, universals_in, Crossed};
ghost use Rattle.checker.specs.Step.{Clean, marks_of};
ghost use Rattle.dependency.specs.Scratch.{small_bound};

use bits::is_set;
use dependency::scratch::SMALL;
use formula::clear::clear_tail;
use formula::literal::Variable;
use formula::prefix::Prefix;
use formula::word::Word;
use inference::clause::{ClauseAt, any_word};
use inference::existentials::{EXISTENTIALS_END, FLAG_BYTES, fill_quantified};
use inference::marks::{MARK_BYTES, mark_clause, opposite_marked, wipe};
use inference::read::Family;

// Whether a word that is not the one left out meets its opposite and is of no variable that may be merged.
fn crosses_word(
    word: i32,
    except: i32,
    marks: &[u8; MARK_BYTES],
    mergeable: &[u8; FLAG_BYTES],
) -> bool
    requires { InRange word }
    ensures { result ≡ crosses_by (marks_in marks.now) (flags mergeable.now) (without except (alone word)) }
{
    except != word && opposite_marked(word, marks) && !is_set(mergeable, Word::variable(word) - 1)
}

// Whether a word of the clause does, by the marks and the flags that stand in the scratch. One pass over the clause.
fn crosses_by(clause: ClauseAt, except: i32, scratch: &[u8; SMALL]) -> bool
    ensures { result ≡ crosses_by (marks_of scratch.now) (universals_in scratch.now) (without except (words_of clause.entry)) }
{
    let marks = scratch.first_chunk::<MARK_BYTES>().unwrap();
    let mergeable = scratch[EXISTENTIALS_END..SMALL]
        .as_array::<FLAG_BYTES>()
        .unwrap();
    any_word(
        clause.words,
        clause.from,
        |word| crosses_word(word, except, marks, mergeable),
    )
}

// The marks of one antecedent standing: whether the other, but for the pivot, holds an opposite that may not be merged.
fn unmergeable(
    prefix: Prefix,
    right: ClauseAt,
    pivot: Variable,
    except: i32,
    scratch: &mut [u8; SMALL],
) -> bool
    ensures { (result ≡ crosses_marks (mergeable_in (prefix_in prefix.entry) pivot.0) (marks_of scratch.old) (without except (words_of right.entry))) × (take merge_at scratch.new ≡ take merge_at scratch.old) }
{
    clear_tail(&mut scratch[EXISTENTIALS_END..SMALL], 0, 0);
    if crosses_by(right, except, scratch) {
        let behind = prefix.right_of(pivot);
        fill_quantified(prefix, behind, false, &mut scratch[EXISTENTIALS_END..SMALL]);
        return crosses_by(right, except, scratch);
    }
    false
}

// Whether the antecedents hold opposite literals, apart from the pivot, that may not be merged. Ordinary ones are not asked: there the result tells.
pub fn antecedents_cross(
    family: Family,
    prefix: Prefix,
    left: ClauseAt,
    right: ClauseAt,
    pivot: Variable,
    scratch: &mut [u8; SMALL],
) -> bool
    requires scratch_clean { Clean scratch.old }
    requires pivot_in_range { pivot.0 ≤ 1024 }
    ensures { Crossed family (crosses (mergeable_in (prefix_in prefix.entry) pivot.0) (without (pos pivot.0) (words_of left.entry)) (without (neg_ℤ (pos pivot.0)) (words_of right.entry))) result scratch.old scratch.new }
{
    match family {
        Family::Ordinary => false,
        Family::LongDistance => {
            let literal = pivot.literal();
            let opposite = literal.negated();
            let marks = scratch.first_chunk_mut::<MARK_BYTES>().unwrap();
            mark_clause(left, literal.0, marks);
            let crossed = unmergeable(prefix, right, pivot, opposite.0, scratch);
            let marks = scratch.first_chunk_mut::<MARK_BYTES>().unwrap();
            wipe(marks);
            crossed
        }
    }
}
