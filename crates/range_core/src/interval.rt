//! Intervals of results, computed from those of the operands.
ghost use Rattle.std.specs.Prelude.{◌^◌, ◌≡◌, ◌≢◌, ◌≤ℤ◌, ◌+ℤ◌, ◌-ℤ◌, ◌*ℤ◌, pos, neg_ℤ, int_div};
ghost use Rattle.std.specs.Option.{SomeIff};
ghost use Rattle.std.specs.Int.{int_min, int_max};
ghost use Rattle.rank_defs.specs.Ranges.{range, hull_of, corners, holds_zero, reach as reach_of, quotient_range, joined_range, range_of_two, may_divide, IsNarrow, IsProper};

use rank_defs::{Op, Range};

/// The greatest absolute value that an end may have.
const WIDEST: i128 = 1 << 100;

/// Returns the interval from one number to another, unless it is too wide.
pub fn narrow(low: i128, high: i128) -> Option<Range>
    ensures { SomeIff result (IsNarrow (range low high)) (range low high) }
{
    if -WIDEST <= low && high <= WIDEST {
        Some(Range { low, high })
    } else {
        None
    }
}

/// Returns whether the interval contains 0.
fn has_zero(r: Range) -> bool
    ensures { result ≡ holds_zero r }
{
    r.low <= 0 && 0 <= r.high
}

/// Returns whether an operation with this interval as its right operand never divides by 0.
pub fn never_divides_by_zero(op: Op, right: Range) -> bool
    ensures { result ≡ may_divide op right }
{
    match op {
        Op::Div => !has_zero(right),
        _ => true,
    }
}

fn least(a: i128, b: i128, c: i128, d: i128) -> i128
    ensures { result ≡ int_min (int_min a b) (int_min c d) }
{
    a.min(b).min(c.min(d))
}

fn greatest(a: i128, b: i128, c: i128, d: i128) -> i128
    ensures { result ≡ int_max (int_max a b) (int_max c d) }
{
    a.max(b).max(c.max(d))
}

/// Returns the smallest interval that contains four numbers, unless it is too wide.
fn hull(a: i128, b: i128, c: i128, d: i128) -> Option<Range>
    ensures { SomeIff result (IsNarrow (hull_of a b c d)) (hull_of a b c d) }
{
    narrow(least(a, b, c, d), greatest(a, b, c, d))
}

/// Returns the interval of a product, unless it is too wide. If the interval is narrow, each
/// product at the ends fits in 128 bits.
fn product(r: Range, s: Range) -> Option<Range>
    ensures { SomeIff result (IsNarrow (corners (λ x y. x *ℤ y) r s))
        (corners (λ x y. x *ℤ y) r s) }
{
    let a = r.low.checked_mul(s.low)?;
    let b = r.low.checked_mul(s.high)?;
    let c = r.high.checked_mul(s.low)?;
    let d = r.high.checked_mul(s.high)?;
    hull(a, b, c, d)
}

fn quotient(x: i128, y: i128) -> i128
    requires far { neg_ℤ (pos (2 ^ 100)) ≤ℤ x }
    requires divides { y ≢ pos 0 }
    ensures { result ≡ int_div x y }
{
    x / y
}

/// Returns the greatest absolute value of the ends.
fn reach(r: Range) -> i128
    requires { IsProper r }
    ensures { result ≡ reach_of r }
{
    r.low.abs().max(r.high.abs())
}

/// Returns the interval from `-most` to `most`, unless it is too wide.
fn around(most: i128) -> Option<Range>
    requires { pos 0 ≤ℤ most }
    ensures { SomeIff result (IsNarrow (range (neg_ℤ most) most)) (range (neg_ℤ most) most) }
{
    narrow(-most, most)
}

fn ratio(r: Range, s: Range) -> Option<Range>
    requires dividend { IsProper r }
    requires divisor { IsProper s }
    ensures { SomeIff result (IsNarrow (quotient_range r s)) (quotient_range r s) }
{
    if has_zero(s) {
        return around(reach(r));
    }
    let a = quotient(r.low, s.low);
    let b = quotient(r.low, s.high);
    let c = quotient(r.high, s.low);
    let d = quotient(r.high, s.high);
    hull(a, b, c, d)
}

fn sum(r: Range, s: Range) -> Option<Range>
    requires left { IsProper r }
    requires right { IsProper s }
    ensures { SomeIff result (IsNarrow (range (r.low +ℤ s.low) (r.high +ℤ s.high)))
        (range (r.low +ℤ s.low) (r.high +ℤ s.high)) }
{
    let low = r.low + s.low;
    let high = r.high + s.high;
    narrow(low, high)
}

fn difference(r: Range, s: Range) -> Option<Range>
    requires left { IsProper r }
    requires right { IsProper s }
    ensures { SomeIff result (IsNarrow (range (r.low -ℤ s.high) (r.high -ℤ s.low)))
        (range (r.low -ℤ s.high) (r.high -ℤ s.low)) }
{
    let low = r.low - s.high;
    let high = r.high - s.low;
    narrow(low, high)
}

/// Returns the interval of an operation, unless it is too wide; only 0 if the result isn't a
/// number.
pub fn combined(op: Op, r: Range, s: Range) -> Option<Range>
    requires left { IsProper r }
    requires right { IsProper s }
    ensures { SomeIff result (IsNarrow (range_of_two op r s)) (range_of_two op r s) }
{
    match op {
        Op::Add => sum(r, s),
        Op::Sub => difference(r, s),
        Op::Mul => product(r, s),
        Op::Div => ratio(r, s),
        Op::Min => narrow(r.low.min(s.low), r.high.min(s.high)),
        Op::Max => narrow(r.low.max(s.low), r.high.max(s.high)),
        _ => narrow(0, 0),
    }
}

/// Returns the smallest interval that contains both, unless it is too wide.
pub fn joined(r: Range, s: Range) -> Option<Range>
    ensures { SomeIff result (IsNarrow (joined_range r s)) (joined_range r s) }
{
    narrow(r.low.min(s.low), r.high.max(s.high))
}
