//! The k with which a block's values are split.

ghost use Rattle.std.specs.Prelude.{◌≡◌, ◌+◌, ◌*◌, ◌^◌, ◌<◌, ◌≤◌, ℕ, nat_lt, if◌then◌else◌, length};
ghost use Rattle.std.specs.List.{AllByRecursion};
ghost use Rattle.aec_block.specs.BlockShape.{most_values};
ghost use Rattle.aec_block.specs.Lengths.{sum_of_shifted, IsSum, AreFewBelow, HaveEqualSums, IsFirstK, IsBestSplit, IsSplitLen};

use crate::choice::sums::shifted_sum;
use crate::choice::sums_of_three::{ThreeSums, small_shifted_sum, three_sums};

/// A k, and the number of bits of the values that are split with it.
#[derive(Clone, Copy, Debug, PartialEq, Eq)]
pub(crate) struct Splitting {
    pub(crate) k: u32,
    pub(crate) bits: u64,
}

/// Returns whether `count` values are shorter with one more low bit each. `sum` is their sum
/// without the low bits, `next` their sum without one more.
#[inline(always)]
pub(crate) fn is_shorter_next(sum: u64, next: u64, count: u64) -> bool
    requires { next + count < 2 ^ 64 }
    ensures { result ≡ nat_lt (next + count) sum }
{
    next + count < sum
}

/// Returns `k` and the number of bits of `count` values that are split with it; `sum` is their sum
/// without the low bits.
#[inline(always)]
pub(crate) fn with_k(sum: u64, count: usize, k: u32) -> Splitting
    requires sum { sum ≤ 2 ^ 39 }
    requires count { count ≤ most_values }
    requires k { k < 32 }
    ensures k { result.k ≡ k }
    ensures bits { result.bits ≡ sum + count * (k + 1) }
    ensures bound { result.bits ≤ 2 ^ 40 }
{
    Splitting {
        k,
        bits: sum + count as u64 * u64::from(k + 1),
    }
}

/// Returns whether the sum of `count` values is more than `3 * count * 2^k`. One more low bit than
/// `k` then makes them shorter.
#[inline(always)]
fn is_past(sum: u64, count: u64, k: u32) -> bool
    requires count { count ≤ most_values }
    requires k { k < 32 }
    ensures { result ≡ nat_lt (3 * count * 2 ^ k) sum }
{
    (3 * count) << k < sum
}

/// Returns the k to begin with or the one before it, by the widths of two numbers.
#[inline(always)]
#[tactic(auto, using(crate::proofs::SplittingLemmas::widths))]
fn near_first(sum: u64, count: u64) -> u32
    requires count { count ≤ most_values }
    ensures before { (j : ℕ) → j < result → 3 * count * 2 ^ j < sum }
    ensures close { 0 < count → sum ≤ 3 * count * 2 ^ (result + 1) }
    ensures bound { result ≤ 64 }
{
    let zeros = (3 * count).leading_zeros();
    zeros.saturating_sub(sum.leading_zeros())
}

/// Returns the k to begin with, by the sum of the values: with each smaller k the values are longer
/// than with the next.
#[inline(always)]
fn first_k(sum: u64, count: u64, last: u32) -> u32
    requires count { count ≤ most_values }
    requires none { count ≡ 0 → sum ≡ 0 }
    requires last { last < 32 }
    ensures { IsFirstK sum count last result }
{
    let near = near_first(sum, count);
    if near >= last {
        return last;
    }
    if is_past(sum, count, near) {
        return near + 1;
    }
    near
}

/// Returns the sum of values below `2^bits`: in lanes of 32 bits if the sum of 64 such values fits
/// these.
#[inline(always)]
fn sum_of_values(values: &[u32], bits: u32) -> u64
    requires { AreFewBelow bits values.now }
    ensures { IsSum 0 values.now (2 ^ 39) result }
{
    if bits <= 26 {
        small_shifted_sum(values, 0)
    } else {
        shifted_sum(values, 0)
    }
}

/// Returns the sum of values below `2^bits` without their `k` low bits; `total` is their sum with
/// these bits. Uses lanes of 32 bits if the sum of 64 such values fits these.
#[inline(always)]
fn sum_from(values: &[u32], bits: u32, total: u64, k: u32) -> u64
    requires total { IsSum 0 values.now (2 ^ 39) total }
    requires k { k < 32 }
    requires values { AreFewBelow bits values.now }
    ensures { IsSum k values.now (2 ^ 39) result }
{
    if k == 0 {
        return total;
    }
    if bits <= 26 + k {
        return small_shifted_sum(values, k);
    }
    shifted_sum(values, k)
}

/// Returns the first of the sums; the second if `one` holds; the third if `two` does. It compiles
/// to two selects, without a branch.
#[inline(always)]
fn sum_of_chosen(sums: ThreeSums, one: bool, two: bool) -> u64
    ensures { result ≡ (if two then sums.third else if one then sums.second else sums.first) }
{
    let less = if one { sums.second } else { sums.first };
    if two { sums.third } else { less }
}

/// Returns the best k, which is `first` or one of the next two: with each k before `first` the
/// values are longer than with the next, and they add up to at most `3 * 2^first` times their
/// number. Their sums are those of `all`. No branch depends on the sums: which k is best can't be
/// predicted.
#[inline(always)]
fn best_of_three(all: &[u32], values: &[u32], first: u32) -> Splitting
    requires first { first < 30 }
    requires equal { HaveEqualSums all.now values.now }
    requires before { (j : ℕ) → j < first
        → 3 * length values.now * 2 ^ j < sum_of_shifted 0 values.now }
    requires there { sum_of_shifted 0 values.now ≤ 3 * length values.now * 2 ^ first }
    ensures best { (options : ℕ) → first + 2 < options → IsBestSplit options result.k values.now }
    ensures counted { IsSplitLen values.now result }
{
    let sums = three_sums(all, first);
    let count = values.len();
    let one = is_shorter_next(sums.first, sums.second, count as u64);
    let two = one & is_shorter_next(sums.second, sums.third, count as u64);
    let sum = sum_of_chosen(sums, one, two);
    with_k(sum, count, first + u32::from(one) + u32::from(two))
}

/// Returns the k below `options` with which values below `2^bits` have the fewest bits, and of
/// equal ones the least. Without options returns 0, which no clause says.
///
/// The sum of the values without their low bits at least halves with each k, so one more low bit
/// never gains more than the one before it: after the first k whose successor isn't shorter, no
/// later k is shorter. The sum of the values determines the k to begin with; if two further k exist
/// after that one, they are enough. The sums are those of `all`: a 0 in the reference place adds
/// nothing, and with it the values fill lanes.
#[inline(always)]
pub(crate) fn best_split(all: &[u32], values: &[u32], bits: u32, options: u32) -> Splitting
    requires below { AllByRecursion (λ v. v < 2 ^ bits) all.now }
    requires options { options ≤ 32 }
    requires equal { HaveEqualSums all.now values.now }
    ensures best { 0 < options → IsBestSplit options result.k values.now }
    ensures counted { IsSplitLen values.now result }
{
    let last = options.saturating_sub(1);
    let total = sum_of_values(all, bits);
    let first = first_k(total, values.len() as u64, last);
    if first + 2 <= last {
        return best_of_three(all, values, first);
    }
    let mut sum = sum_from(all, bits, total, first);
    for k in first..last {
        let next = sum_from(all, bits, total, k + 1);
        if !is_shorter_next(sum, next, values.len() as u64) {
            return with_k(sum, values.len(), k);
        }
        sum = next;
    }
    with_k(sum, values.len(), last)
}
