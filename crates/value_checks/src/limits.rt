ghost use Rattle.std.specs.Prelude.{◌≡◌, IsTrue, MatchResult, Some, None};
ghost use Rattle.value_model.specs.Limits.{value_limit, state_limit};
ghost use Rattle.value_model.specs.Well.{well as is_well};

use crate::keys::key_faults;
use values::{Limit, Val, ValNode, depth, weight};

/// Whether a value is accepted: the first limit that it is past is `TooDeep` (more than 32 containers nest), `TooBig` (it
/// weighs more than 2^20), `KeyTooLong` (a key of an object or a Map, or a member of a Set, is a text of more than 1,024
/// bytes) or `ReservedKey` (a key of an object is `__proto__`, `constructor` or `prototype`), in this order.
pub fn check_value(v: &Val) -> Result<(), Limit>
    ensures limit { MatchResult result (λ _. value_limit v.now ≡ None) (λ l. value_limit v.now ≡ Some l) }
    ensures well { IsTrue (is_well v.now) }
{
    let keys = key_faults(v);
    if depth(v) > 32 {
        return Err(Limit::TooDeep);
    }
    if weight(v) > 1 << 20 {
        return Err(Limit::TooBig);
    }
    if keys.long {
        return Err(Limit::KeyTooLong);
    }
    if keys.reserved {
        return Err(Limit::ReservedKey);
    }
    Ok(())
}

/// Whether a value may be a state: `NotContainer` exactly for a primitive, then as `check_value`.
pub fn check_state(v: &Val) -> Result<(), Limit>
    ensures limit { MatchResult result (λ _. state_limit v.now ≡ None) (λ l. state_limit v.now ≡ Some l) }
    ensures well { IsTrue (is_well v.now) }
{
    let checked = check_value(v);
    match &v.node {
        ValNode::Prim(_) => Err(Limit::NotContainer),
        _ => checked,
    }
}
