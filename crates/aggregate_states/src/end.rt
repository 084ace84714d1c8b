//! The ends of the whole order of values, and which of two values is nearer to one.
ghost use Rattle.std.specs.Prelude.{◌≡◌, true, false};
ghost use Rattle.std.specs.Ordering.{is_lt};
ghost use Rattle.meaning.specs.Order.{is_null, lesser, value_in};
ghost use Rattle.aggregate_states.specs.Kinds.{cmp_from};
ghost use Rattle.aggregate_states.specs.Values.{entry};

use meaning::{ValueRef, compare_lent};

/// An end of the whole order.
#[derive(Clone, Copy)]
pub enum End {
    Least,
    Greatest,
}

/// Whether a value is NULL.
#[inline(always)]
pub fn is_null(value: ValueRef<'_>) -> bool
    ensures { result ≡ is_null (value_in value.entry) }
{
    match value {
        ValueRef::Null => true,
        ValueRef::Int(_) => false,
        ValueRef::Text(_) => false,
    }
}

/// Whether a value comes before another, from this end.
pub fn comes_first(end: End, value: ValueRef<'_>, other: ValueRef<'_>) -> bool
    ensures { result ≡ is_lt (cmp_from end (value_in value.entry) (value_in other.entry)) }
{
    match end {
        End::Least => compare_lent(value, other).is_lt(),
        End::Greatest => compare_lent(other, value).is_lt(),
    }
}

/// Whether a value comes before the best so far, from this end. NULL is no value here.
pub fn beats(end: End, value: ValueRef<'_>, best: ValueRef<'_>) -> bool
    ensures yes { result ≡ true
        → lesser (cmp_from end) (entry (value_in best.entry)) (entry (value_in value.entry))
        ≡ entry (value_in value.entry) }
    ensures no { result ≡ false
        → lesser (cmp_from end) (entry (value_in best.entry)) (entry (value_in value.entry))
        ≡ entry (value_in best.entry) }
{
    if is_null(value) {
        return false;
    }
    if is_null(best) {
        return true;
    }
    comes_first(end, value, best)
}
