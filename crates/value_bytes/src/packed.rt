ghost use Rattle.std.specs.Prelude.{◌≡◌, ◌++◌, IfOk, OnOk};
ghost use Rattle.value_bytes_spec.specs.Reading.{pair_at};
ghost use Rattle.value_bytes_spec.specs.Spelling.{pair_bytes, IsPair, CanSpell};
ghost use Rattle.value_bytes.specs.Gives.{Gives};

use crate::patch_reading::patches_of;
use crate::patch_writing::put_patch_list;
use crate::stop::Stop;
use std::alloc::{AllocError, Global};
use std::marker::Model;
use std::rc::RcSlice;
use values::Pair;

/// A pair, kept as bytes that are shared and never change.
///
/// A contract sees it as the pair.
#[derive(Drop)]
pub struct Packed {
    bytes: RcSlice<u8>,
}

impl Model for Packed {
    ghost use Rattle.values.specs.declared.patch.Pair.{Pair};

    ghost Value = { Pair };

    ghost use Rattle.std.specs.Coded.{codes};
    ghost use Rattle.values.specs.contracts.patch.Pair as pair;

    ghost coded = { Prim.hlevel (codes, pair.the_row.coded) };

    ghost use Rattle.std.specs.Rc.{rc_slice_items};
    ghost use Rattle.value_bytes.specs.Packing.{pair_of, IsPacked};

    ghost view = { λ p. pair_of (rc_slice_items p.bytes) };

    ghost invariant = { λ p. IsPacked (rc_slice_items p.bytes) };
}

impl Packed {
    /// The pair as bytes. `check_value` accepts each value of both lists, and each list and each path has fewer than 2^32
    /// elements. `AllocError` comes only where memory runs out.
    pub fn of(alloc: Global, pair: &Pair) -> Result<Packed, AllocError>
        requires forward { CanSpell pair.now.forward }
        requires inverse { CanSpell pair.now.inverse }
        ensures { IfOk result (λ p. p ≡ pair.now) }
    {
        let mut bytes = Vec::new(alloc);
        put_pair(&mut bytes, pair)?;
        Ok(Packed {
            bytes: RcSlice::from_vec(bytes)?,
        })
    }

    /// The pair that was packed. `AllocError` comes only where memory runs out.
    pub fn pair(&self, alloc: Global) -> Result<Pair, AllocError>
        ensures { IfOk result (λ p. p ≡ self.now) }
    {
        match pair_of(alloc, self.bytes.as_slice()) {
            Ok((pair, _)) => Ok(pair),
            Err(Stop::NoSpelling) => unreachable!(),
            Err(Stop::Memory) => Err(AllocError),
        }
    }

    /// The same pair over the same bytes, which aren't copied. `AllocError` comes only where memory runs out.
    pub fn share(&self) -> Result<Packed, AllocError>
        ensures { IfOk result (λ p. p ≡ self.now) }
    {
        Ok(Packed {
            bytes: self.bytes.clone()?,
        })
    }

    /// The spellings of the forward and of the inverse list, one after the other. It takes no memory.
    pub fn bytes(&self) -> &[u8]
        ensures spelling { result.now ≡ pair_bytes self.now }
        ensures pair { IsPair self.now }
    {
        self.bytes.as_slice()
    }
}

fn put_pair(out: &mut Vec<u8>, pair: &Pair) -> Result<(), AllocError>
    requires forward { CanSpell pair.now.forward }
    requires inverse { CanSpell pair.now.inverse }
    ensures bytes { OnOk result (out.new.items ≡ out.old.items ++ pair_bytes pair.now) }
    ensures pair { OnOk result (IsPair pair.now) }
{
    put_patch_list(out, &pair.forward)?;
    put_patch_list(out, &pair.inverse)
}

#[tactic(auto, unfolding(value_bytes_spec::specs::Reading::pair_at))]
fn pair_of(alloc: Global, bytes: &[u8]) -> Result<(Pair, &[u8]), Stop>
    ensures { Gives (λ x. (x.0, x.1.now)) result (pair_at bytes.now) }
{
    let (forward, rest) = patches_of(alloc, bytes)?;
    let (inverse, rest) = patches_of(alloc, rest)?;
    Ok((Pair { forward, inverse }, rest))
}
