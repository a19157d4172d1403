//! Lists that are picked from others.

ghost use Rattle.std.specs.Prelude.{ℕ, ◌≤◌, ◌↔◌, IsTrue, length, take};
ghost use Rattle.stab_judge.specs.Judged.{IsPicked, Splits, SplitsBefore};

use stab_frames::Item;

/// How many of the first items of `part` are picked from `whole`, at most. Each is looked for after
/// the one before it, so this walks once through `whole`.
pub fn count_picked(part: &[Item], whole: &[Item]) -> usize
    ensures within { result ≤ length part.now }
    ensures picked { IsPicked (take result part.now) whole.now }
    ensures most { (n : ℕ) → n ≤ length part.now → IsPicked (take n part.now) whole.now
        → n ≤ result }
{
    let mut count: usize = 0;
    for item in whole {
        if count < part.len() && part[count] == *item {
            count += 1;
        }
    }
    count
}

/// Whether `part` is picked from `whole`: in its order, each place at most once.
pub fn is_picked(part: &[Item], whole: &[Item]) -> bool
    ensures { IsTrue result ↔ IsPicked part.now whole.now }
{
    count_picked(part, whole) == part.len()
}

/// Whether `body` is at most `most_strays` items picked from `garbage`, then items picked from
/// `items`. Where it splits at all, it splits after as many strays as there can be.
pub(crate) fn splits(most_strays: usize, garbage: &[Item], items: &[Item], body: &[Item]) -> bool
    ensures { IsTrue result ↔ Splits most_strays garbage.now items.now body.now }
{
    let strays = most_strays.min(count_picked(body, garbage));
    is_picked(&body[strays..], items)
}

/// The same of what is before `tail`, which the delivered list ends with.
pub(crate) fn splits_before(
    most_strays: usize,
    garbage: &[Item],
    items: &[Item],
    tail: &[Item],
    delivered: &[Item],
) -> bool
    ensures { IsTrue result
        ↔ SplitsBefore most_strays garbage.now items.now tail.now delivered.now }
{
    match delivered.strip_suffix(tail) {
        Some(body) => splits(most_strays, garbage, items, body),
        None => false,
    }
}
