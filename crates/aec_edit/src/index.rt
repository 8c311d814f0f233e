//! The index of a stream: where its intervals begin.

ghost use Rattle.std.specs.Prelude.{◌≡◌, ◌+◌, ◌-◌, ◌^◌, ◌≤◌, ◌++◌, length, map, take, drop, replicate, vec_len, vec_capacity};
ghost use Rattle.aec_edit.specs.CodedLists.{CanMoveOn, CanShift, with_starts, CanTakeStarts};

use crate::coded::Cut;

/// Replaces the starts of the intervals between two cuts by those in `with`, each plus the bit of
/// the first cut, and adds `new_end` minus the bit of the second to each start after them. There
/// must be room for the new starts.
pub(crate) fn replace_starts(starts: &mut Vec<u64>, from: Cut, to: Cut, with: &[u64], new_end: u64)
    requires { CanTakeStarts starts.old from to with.now new_end }
    ensures { starts.new.items ≡ with_starts starts.old.items from to with.now new_end }
{
    let first = from.interval as usize;
    let end = first + with.len();
    move_later(starts, to.interval as usize, end);
    write_starts(starts.as_mut_slice(), first, with, from.bit);
    shift_starts(starts.as_mut_slice(), end, to.bit, new_end);
}

/// Moves the starts from number `from` on to number `to`, and makes the list longer or shorter by
/// the difference, for which it must have room. The places between contain zeros and old starts.
fn move_later(starts: &mut Vec<u64>, from: usize, to: usize)
    requires within { from ≤ vec_len starts.old }
    requires room { to + (vec_len starts.old - from) ≤ vec_capacity starts.old }
    ensures items { starts.new.items
        ≡ take to (starts.old.items ++ replicate (to - from) 0) ++ drop from starts.old.items }
    ensures len { vec_len starts.new ≡ to + (vec_len starts.old - from) }
{
    if from == to {
        return;
    }
    let len = starts.len();
    starts.resize(len + to.saturating_sub(from), 0).unwrap();
    starts.copy_within(from..len, to);
    starts.truncate(to + (len - from));
}

/// Overwrites the starts from number `at` on with those in `with`, each plus `base`.
fn write_starts(starts: &mut [u64], at: usize, with: &[u64], base: u64)
    requires within { at + length with.now ≤ length starts.old }
    requires few { CanMoveOn base with.now }
    ensures { starts.new ≡ take at starts.old
        ++ (map (λ x. base + x) with.now ++ drop (at + length with.now) starts.old) }
{
    for (k, start) in with.iter().enumerate() {
        starts[at + k] = base + *start;
    }
}

/// Adds `new_end - old_end` to each start from number `at` on, of which none is below `old_end`.
fn shift_starts(starts: &mut [u64], at: usize, old_end: u64, new_end: u64)
    requires within { at ≤ length starts.old }
    requires few { CanShift at old_end new_end starts.old }
    ensures { starts.new ≡ take at starts.old
        ++ map (λ x. x - old_end + new_end) (drop at starts.old) }
{
    if old_end == new_end {
        return;
    }
    for k in at..starts.len() {
        starts[k] = starts[k] - old_end + new_end;
    }
}
