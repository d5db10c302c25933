ghost use Rattle.std.specs.Prelude.{◌≡◌, ◌≤◌, IsNone, IfSome, ◌↔◌, MatchOption, ◌<ℤ◌, pos};
ghost use Rattle.value_model.specs.Safe.{IsSafe};

use std::marker::Model;

/// The greatest integer that is safe, 2^53 - 1: `Number.MAX_SAFE_INTEGER` of ECMA-262.
pub const MAX_SAFE: i64 = 9_007_199_254_740_991;

/// An integer of magnitude at most 2^53 - 1, as `Number.isSafeInteger` of ECMA-262 has it.
///
/// A contract sees it as the integer.
#[derive(Clone, Copy, Debug, Drop, PartialEq, Eq, PartialOrd, Ord)]
pub struct Safe {
    n: i64,
}

impl Model for Safe {
    ghost use Rattle.std.specs.Prelude.{ℤ};
    ghost use Rattle.value_model.specs.Safe.{IsSafe};

    ghost Value = { ℤ };

    ghost view = { λ s. s.n };

    ghost invariant = { λ s. IsSafe s.n };

    ghost inverse = { λ n. record { n = n } };
}

impl Safe {
    /// The integer, or None exactly where its magnitude is above 2^53 - 1.
    pub fn of(n: i64) -> Option<Safe>
        ensures some { IfSome result (λ s. s ≡ n) }
        ensures none { IsNone result ↔ (¬ IsSafe n) }
    {
        if n >= -MAX_SAFE && n <= MAX_SAFE {
            Some(Safe { n })
        } else {
            None
        }
    }

    /// The number.
    pub fn get(&self) -> i64
        ensures value { result ≡ self.now }
        ensures safe { IsSafe self.now }
    {
        self.n
    }

    /// The number as an index, or None exactly where it is negative.
    pub fn index(&self) -> Option<u64>
        ensures { MatchOption result (self.now <ℤ pos 0) (λ i. self.now ≡ pos i) }
    {
        if self.n < 0 {
            None
        } else {
            Some(self.n as u64)
        }
    }
}
