//! The end of a scope.
ghost use Rattle.draft_core.specs.Ended.{IsLeft};

use crate::scope::Scope;
use run_heap::Content;

impl Scope {
    /// What the root draft holds, where it has a table of its own; without one it is as it was opened. The scope ends. It takes
    /// no memory.
    pub fn into_root(self) -> Option<Content>
        ensures { IsLeft self result }
    {
        let mut scope = self;
        scope.touched.remove(&0)
    }
}
