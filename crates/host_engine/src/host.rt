ghost use Rattle.node_store.specs.Paged.{states};
ghost use Rattle.std.specs.Prelude.{◌≡◌, ◌≤◌, ◌<◌, ◌+◌, ◌^◌, IfOk, IfErr, IsTrue, Some, None, min, []};
ghost use Rattle.value_model.specs.Limits.{state_limit};
ghost use Rattle.host_machine.specs.Carries.{IsSound};
ghost use Rattle.host_machine.specs.Flat.{is_flat, is_built, are_flat};
ghost use Rattle.numbered.specs.Tree.{number};
ghost use Rattle.plain_values.specs.declared.command.Word.TheVariants as word;
ghost use Rattle.plain_values.specs.declared.refusal.Refusal.TheVariants as refusal;
ghost use Rattle.plain_values.specs.declared.reply.Reply.TheVariants as reply;
ghost use Rattle.value_model.specs.Places.{at};
ghost use Rattle.host_machine.specs.Paths.{subtree_at};
ghost use Rattle.host_machine.specs.Machine.{value, opened, no_path, state_shown, node_shown, counted, step, apply_step, no_patches as no_patches_of};
ghost use Rattle.numbered.specs.Loading.{loaded};

use crate::apply::{Stop, apply};
use crate::places::{number_at, value_at};
use draft_core::ScopeMint;
use node_store::{NodeId, Store, StoreFault};
use plain_values::{Cause, Command, Pair, Patches, Path, Refusal, Reply, Val, Word};
use std::alloc::{AllocError, Global};
use std::marker::Model;

/// How many past changes are counted at most.
const MAX_PAST: u64 = 100;

/// A host: one state, changed by commands.
///
/// A contract sees it as its machine, and the number of the commands that it has taken.
#[derive(Drop)]
pub struct Host {
    store: Store,
    root: NodeId,
    /// Gives the scope of each command its number.
    mint: ScopeMint,
    past: u64,
    seq: u64,
    turns: u64,
}

impl Model for Host {
    ghost use Rattle.std.specs.Coded.{codes};
    ghost use Rattle.numbered.specs.Code.{coded_tree};
    ghost use Rattle.host_machine.specs.Machine.{Turned};
    ghost use Rattle.host_engine.specs.Kept.{IsKept, machine_of};
    ghost use Rattle.node_store.specs.Paged.{states};

    ghost Value = { Turned };

    ghost coded = { Prim.hlevel (codes, coded_tree) };

    ghost view = { λ h. record { machine = machine_of (states h.store) h.root h.past h.seq; turns = h.turns } };

    ghost invariant = { λ h. IsKept (states h.store) h.root h.mint h.past h.seq h.turns };
}

impl Host {
    /// A host on a first state, which has the number 1. The only error is want of memory.
    pub fn open(alloc: Global, first: &Val) -> Result<Host, AllocError>
        requires accepted { state_limit first.now ≡ None }
        requires flat { IsTrue (is_flat first.now) }
        ensures machine { IfOk result (λ h. h.machine ≡ opened first.now) }
        ensures turns { IfOk result (λ h. h.turns ≡ 0) }
    {
        let mut store = Store::new(alloc)?;
        let root = load_first(&mut store, alloc, first)?;
        Ok(Host {
            store,
            root,
            mint: ScopeMint::new(),
            past: 0,
            seq: 0,
            turns: 0,
        })
    }

    /// How many commands the host has taken. Its state is flat, and its names ascend.
    pub fn turns(&self) -> u64
        ensures turns { result ≡ self.now.turns }
        ensures sound { IsSound (value self.now.machine) }
    {
        let _in_order = self.store.len();
        self.turns
    }

    /// Runs one command, and answers it. The only error is want of memory, and then the host is as before.
    pub fn turn(self, alloc: Global, command: Command) -> Result<(Host, Reply), Host>
        requires turns { self.turns < 2 ^ 48 }
        requires built { IsTrue (is_built command) }
        ensures step { IfOk result (λ r. (r.0.machine, r.1) ≡ step self.machine command) }
        ensures turns { IfOk result (λ r. r.0.turns ≡ self.turns + 1) }
        ensures err { IfErr result (λ h. h ≡ self) }
    {
        match command {
            Command::Apply { patches } => self.apply(alloc, patches),
            Command::State { path } => self.state(alloc, path),
            Command::Node { path } => Ok(self.node(path)),
            Command::Stat => Ok(self.stat()),
            _ => unreachable!(),
        }
    }

    /// Applies patches to a draft of the state, and keeps the change. A scope ends with its command: where memory ran out, its
    /// number may be given again.
    fn apply(self, alloc: Global, patches: Patches) -> Result<(Host, Reply), Host>
        requires turns { self.turns < 2 ^ 48 }
        requires flat { IsTrue (are_flat patches) }
        ensures step { IfOk result (λ r. (r.0.machine, r.1) ≡ apply_step self.machine patches) }
        ensures turns { IfOk result (λ r. r.0.turns ≡ self.turns + 1) }
        ensures err { IfErr result (λ h. h ≡ self) }
    {
        let mut host = self;
        host.turns += 1;
        let ticket = host.mint.take();
        match apply(
            &mut host.store,
            alloc,
            ticket,
            host.root,
            patches.as_slice(),
        ) {
            Ok(Some(change)) => {
                host.root = change.root;
                host.past = (host.past + 1).min(MAX_PAST);
                host.seq += 1;
                let reply = host.accepted(change.pair);
                Ok((host, reply))
            }
            Ok(None) => {
                let reply = host.accepted(no_patches(alloc));
                Ok((host, reply))
            }
            Err(Stop::Refused { at, why }) => Ok((host, refused(Word::Apply, at, why))),
            Err(Stop::Memory) => {
                host.turns -= 1;
                host.mint = ScopeMint::new();
                Err(host)
            }
        }
    }

    /// Shows what stands at a path.
    fn state(self, alloc: Global, path: Path) -> Result<(Host, Reply), Host>
        requires turns { self.turns < 2 ^ 48 }
        ensures step { IfOk result (λ r. (r.0.machine, r.1) ≡ state_shown self.machine (at path (value self.machine))) }
        ensures turns { IfOk result (λ r. r.0.turns ≡ self.turns + 1) }
        ensures err { IfErr result (λ h. h ≡ self) }
    {
        match value_at(&self.store, alloc, self.root, &path) {
            Ok(Some(value)) => Ok((self.turned(), Reply::State { value })),
            Ok(None) => Ok(self.unfound(Word::State)),
            Err(_) => Err(self),
        }
    }

    /// Shows the number of what stands at a path.
    fn node(self, path: Path) -> (Host, Reply)
        requires { self.turns < 2 ^ 48 }
        ensures step { (result.0.machine, result.1) ≡ node_shown self.machine (subtree_at path self.machine.state) }
        ensures turns { result.0.turns ≡ self.turns + 1 }
    {
        match number_at(&self.store, self.root, &path) {
            Some(node) => (self.turned(), Reply::Node { node }),
            None => self.unfound(Word::Node),
        }
    }

    /// What the host counts.
    fn stat(self) -> (Host, Reply)
        requires { self.turns < 2 ^ 48 }
        ensures step { (result.0.machine, result.1) ≡ counted self.machine }
        ensures turns { result.0.turns ≡ self.turns + 1 }
    {
        let reply = Reply::Stat {
            nodes: self.store.len(),
            redo: 0,
            seq: self.seq,
            sessions: 0,
            undo: self.past,
            used: self.store.used(),
        };
        (self.turned(), reply)
    }

    /// The host after a command that read it.
    fn turned(self) -> Host
        requires { self.turns < 2 ^ 48 }
        ensures machine { result.machine ≡ self.machine }
        ensures turns { result.turns ≡ self.turns + 1 }
    {
        let mut host = self;
        host.turns += 1;
        host
    }

    /// The host after a path that leads nowhere.
    fn unfound(self, word: Word) -> (Host, Reply)
        requires { self.turns < 2 ^ 48 }
        ensures step { (result.0.machine, result.1) ≡ no_path self.machine word }
        ensures turns { result.0.turns ≡ self.turns + 1 }
    {
        (self.turned(), refused(word, None, Cause::NoPath))
    }

    /// The reply to an accepted command with these patches.
    fn accepted(&self, pair: Pair) -> Reply
        ensures { result ≡ reply.Changed word.Apply pair (number self.now.machine.state) self.now.machine.seq None }
    {
        Reply::Changed {
            word: Word::Apply,
            pair,
            root: self.root.get(),
            seq: self.seq,
            session: None,
        }
    }
}

/// The reply to a command that is refused, of a patch with its position.
fn refused(word: Word, at: Option<u64>, why: Cause) -> Reply
    ensures { result ≡ reply.No word None at (refusal.Named why) }
{
    Reply::No {
        word,
        session: None,
        at,
        why: Refusal::Named(why),
    }
}

fn no_patches(alloc: Global) -> Pair
    ensures { result ≡ no_patches_of }
{
    Pair {
        forward: Patches::from_vec(Vec::new(alloc)),
        inverse: Patches::from_vec(Vec::new(alloc)),
    }
}

/// Loads the first state, which gets the number 1.
fn load_first(store: &mut Store, alloc: Global, first: &Val) -> Result<NodeId, AllocError>
    requires empty { (states store.old) ≡ [] }
    requires accepted { state_limit first.now ≡ None }
    requires flat { IsTrue (is_flat first.now) }
    ensures { IfOk result (λ id. (id ≡ 1) × ((states store.new) ≡ loaded [] first.now)) }
{
    match store.load(alloc, first) {
        Ok(id) => Ok(id),
        Err(StoreFault::Memory) => Err(AllocError),
        Err(StoreFault::Full) => unreachable!(),
    }
}
