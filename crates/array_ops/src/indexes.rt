//! Indexes that are counted from the start or from the end.
ghost use Rattle.std.specs.Prelude.{◌≡◌, MatchOption, false, true};
ghost use Rattle.array_ops_spec.specs.Calls as spec;

/// An index counted from the start, or, where it is negative, from the end: at least 0, and at most the length.
pub(crate) fn relative(index: i64, count: usize) -> usize
    ensures { result ≡ spec.relative index count }
{
    let distance = index.unsigned_abs() as usize;
    if index < 0 {
        count.saturating_sub(distance)
    } else {
        distance.min(count)
    }
}

/// The same of an end, which is the length where it is left out.
pub(crate) fn end_at(end: Option<i64>, count: usize) -> usize
    ensures { result ≡ spec.end_at end count }
{
    match end {
        Some(end) => relative(end, count),
        None => count,
    }
}

/// How many elements are removed of so many: as many as are asked for, or all where no count is given.
pub(crate) fn removed(count: Option<i64>, rest: usize) -> usize
    ensures { result ≡ spec.removed count rest }
{
    match count {
        Some(count) => {
            if count < 0 {
                0
            } else {
                (count as usize).min(rest)
            }
        }
        None => rest,
    }
}

/// The length that a list of so many elements is to be cut to, None where it is negative or past the end.
pub(crate) fn cut_at(n: i64, count: usize) -> Option<usize>
    ensures { MatchOption result (spec.is_past n count ≡ true) (λ k. (spec.is_past n count ≡ false) × (k ≡ spec.natural n)) }
{
    if n < 0 || n as usize > count {
        None
    } else {
        Some(n as usize)
    }
}
