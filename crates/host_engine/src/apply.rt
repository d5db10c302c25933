//! The command that applies patches: they edit the root draft of a scope, which is then frozen.
ghost use Rattle.node_store.specs.Paged.{states};
ghost use Rattle.std.specs.Prelude.{◌≡◌, IsTrue, None};
ghost use Rattle.host_machine.specs.Flat.{are_flat};
ghost use Rattle.host_engine.specs.Applied.{Applies, edit_stop, change_stop};
ghost use Rattle.host_engine.specs.Kept.{IsFlatState};

use crate::change::{Change, ChangeStop, keep};
use crate::edits::{EditStop, edit_all};
use draft_core::{Scope, ScopeTicket};
use node_store::{NodeId, Store};
use plain_values::{Cause, Patch};
use std::alloc::{AllocError, Global};

/// Why a command is not carried out.
#[derive(Clone, Copy, Debug, Drop, PartialEq, Eq)]
pub enum Stop {
    /// It is refused, of a patch with its position.
    Refused { at: Option<u64>, why: Cause },
    Memory,
}

impl From<AllocError> for Stop {
    ghost use Rattle.host_engine.specs.declared.apply.Stop.TheVariants.{Memory};

    ghost from_gives = { λ _ e. e ≡ Memory };

    fn from(_: AllocError) -> Self {
        Stop::Memory
    }
}

/// Applies the patches to the state under the number, and keeps what they make of it. None where none of them changed it when
/// it was applied; the store is then as before, as it is after a refusal and where memory ran out.
pub fn apply(
    store: &mut Store,
    alloc: Global,
    ticket: ScopeTicket,
    root: NodeId,
    patches: &[Patch],
) -> Result<Option<Change>, Stop>
    requires state { IsFlatState (states store.old) root }
    requires patches { IsTrue (are_flat patches.now) }
    ensures { Applies (states store.old) (states store.new) root patches.now result }
{
    let mut scope = Scope::begin(alloc, ticket, store, root)?;
    match edit_all(alloc, store, &mut scope, patches) {
        Ok(()) => {}
        Err(stop) => return Err(fault_of(stop)),
    }
    let Some(content) = scope.into_root() else {
        return Ok(None);
    };
    if !content.written {
        return Ok(None);
    }
    match keep(store, alloc, root, content.table) {
        Ok(change) => Ok(Some(change)),
        Err(stop) => Err(limit_of(stop)),
    }
}

/// The refusal of patches that can't be applied.
fn fault_of(stop: EditStop) -> Stop
    ensures { result ≡ edit_stop stop }
{
    match stop {
        EditStop::At { at, why } => Stop::Refused {
            at: Some(at),
            why: Cause::of_patch(why),
        },
        EditStop::Memory => Stop::Memory,
    }
}

/// The refusal of a change that is past a limit.
fn limit_of(stop: ChangeStop) -> Stop
    ensures { result ≡ change_stop stop }
{
    match stop {
        ChangeStop::TooBig => past_limit(Cause::TooBig),
        ChangeStop::Full => past_limit(Cause::Full),
        ChangeStop::PatchesTooBig => past_limit(Cause::PatchesTooBig),
        ChangeStop::Memory => Stop::Memory,
    }
}

fn past_limit(why: Cause) -> Stop
    ensures { result ≡ Stop.Refused None why }
{
    Stop::Refused { at: None, why }
}
