//! The longest end of a text that is a front of a pattern, found in one walk through the text.
//! Beside each front of the pattern it is kept which shorter front it ends with, so that nothing of
//! the text is read twice.

ghost use Rattle.std.specs.Prelude.{◌≡◌, ℕ, ◌≤◌, List, [], ◌∷◌, ◌++◌, length, IfOk, vec_len};
ghost use Rattle.stab_judge.specs.Judged.{Longest, FailsTo};

use stab_frames::Item;
use std::alloc::{AllocError, Global};

/// The most first items of the pattern that a text ends with, once `item` comes behind it; before
/// that it is `start`.
fn advance(pattern: &[Item], fails: &[usize], start: usize, item: Item) -> usize
    requires within { start ≤ length pattern.now }
    requires enough { start ≤ length fails.now }
    requires right { FailsTo pattern.now fails.now start }
    ensures { (text : List ℕ) → Longest start pattern.now text
        → Longest result pattern.now (text ++ item ∷ []) }
{
    let mut count = start;
    while count == pattern.len() || pattern[count] != item {
        if count == 0 {
            return 0;
        }
        count = fails[count - 1];
    }
    count + 1
}

/// For each front of the pattern the most first items that it ends with beside itself.
fn failures(alloc: Global, pattern: &[Item]) -> Result<Vec<usize>, AllocError>
    ensures len { IfOk result (λ fails. vec_len fails ≡ length pattern.now) }
    ensures right { IfOk result (λ fails. FailsTo pattern.now fails.items (length pattern.now)) }
{
    let mut fails: Vec<usize> = Vec::with_capacity(alloc, pattern.len())?;
    let mut last: usize = 0;
    for i in 0..pattern.len() {
        if 0 < i {
            last = advance(pattern, &fails, last, pattern[i]);
        }
        fails.push(last)?;
    }
    Ok(fails)
}

/// The most first items of the pattern that the text ends with.
pub(crate) fn longest_end(
    alloc: Global,
    pattern: &[Item],
    text: &[Item],
) -> Result<usize, AllocError>
    ensures { IfOk result (λ count. Longest count pattern.now text.now) }
{
    let fails = failures(alloc, pattern)?;
    let mut count: usize = 0;
    for item in text {
        count = advance(pattern, &fails, count, *item);
    }
    Ok(count)
}
