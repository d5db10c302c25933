ghost use Rattle.std.specs.Prelude.{◌≡◌};
ghost use Rattle.std.proofs.Common.{rules};
ghost use Rattle.std.specs.Cmp.{partial_order_from_own_ties, eq_by_cmp_equiv, on_equiv, on_total, partial_equiv_from_equiv};
ghost use Rattle.std.specs.Cmp.Rules.{comparing};
ghost use Rattle.std.specs.Ordering.{on, eq_by_cmp, as_partial_cmp};
ghost use Rattle.value_model.specs.Order.{key_cmp, key_total};

use std::cmp::Ordering;
use values::Key;

/// A key, to be kept in a table in the order of keys.
#[derive(Drop)]
pub(crate) struct Ranked {
    pub(crate) key: Key,
}

impl PartialEq for Ranked {
    ghost eq = { on (λ r. r.key) (eq_by_cmp key_cmp) };

    ghost laws = { Prim.search (comparing, rules, key_total) };

    fn eq(&self, other: &Ranked) -> bool {
        self.key.compare(&other.key).is_eq()
    }
}

impl Eq for Ranked {
    ghost laws = { Prim.search (comparing, rules, key_total) };
}

impl PartialOrd for Ranked {
    ghost partial_cmp = { as_partial_cmp (on (λ r. r.key) key_cmp) };

    ghost laws = { Prim.search (comparing, rules, key_total) };

    fn partial_cmp(&self, other: &Ranked) -> Option<Ordering> {
        Some(self.cmp(other))
    }
}

impl Ord for Ranked {
    ghost cmp = { on (λ r. r.key) key_cmp };

    ghost total = { Prim.search (comparing, rules, key_total) };

    ghost matches_partial_cmp = { Prim.search (comparing, rules, key_total) };

    ghost matches_eq = { Prim.search (comparing, rules, key_total) };

    fn cmp(&self, other: &Ranked) -> Ordering {
        self.key.compare(&other.key)
    }
}
