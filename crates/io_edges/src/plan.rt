ghost use Rattle.std.specs.Prelude.{◌≡◌, IfOk, IsErr, ◌↔◌, Contains};
ghost use Rattle.io_edges.specs.Causes.{CountsFaults, next_count};

use crate::traits::Failed;
use std::alloc::{AllocError, Global};

/// Which calls of an object in memory are to fail, and how many calls came and failed so far. Both
/// counts stand still at 2^64 - 1.
#[derive(Drop)]
pub struct FaultPlan {
    /// The numbers of the calls that are to fail, counted from 0, in any order.
    pub listed: Vec<u64>,
    /// How many calls came.
    pub calls: u64,
    /// How many calls failed.
    pub faults: u64,
}

impl FaultPlan {
    /// A plan by which the calls with the numbers in `listed` fail. The only error is want of
    /// memory.
    pub fn new(alloc: Global, listed: &[u64]) -> Result<FaultPlan, AllocError>
        ensures listed { IfOk result (λ plan. plan.listed.items ≡ listed.now) }
        ensures begins { IfOk result (λ plan. (plan.calls ≡ 0) × (plan.faults ≡ 0)) }
    {
        Ok(FaultPlan {
            listed: Vec::from_slice(alloc, listed)?,
            calls: 0,
            faults: 0,
        })
    }

    /// Counts a call, which fails exactly where its number is listed.
    pub fn begin_call(&mut self) -> Result<(), Failed>
        ensures fails { IsErr result ↔ Contains self.old.listed.items self.old.calls }
        ensures faults { CountsFaults self.old.faults self.new.faults result }
        ensures calls { self.new.calls ≡ next_count self.old.calls }
        ensures kept { self.new.listed ≡ self.old.listed }
    {
        let number = self.calls;
        self.calls = number.saturating_add(1);
        if self.listed.contains(&number) {
            return Err(self.fail_call());
        }
        Ok(())
    }

    /// Counts a fault, and answers it.
    pub fn fail_call(&mut self) -> Failed
        ensures faults { self.new.faults ≡ next_count self.old.faults }
        ensures kept { (self.new.listed ≡ self.old.listed) × (self.new.calls ≡ self.old.calls) }
    {
        self.faults = self.faults.saturating_add(1);
        Failed
    }
}
