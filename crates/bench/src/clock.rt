use std::time::Duration;

/// A time in microseconds, at least one.
pub(crate) fn micros(time: Duration) -> u64 {
    let all = time.as_micros();
    if all < 1 << 60 {
        all.max(1) as u64
    } else {
        1 << 60
    }
}
