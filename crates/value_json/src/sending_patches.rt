//! Paths and patches sent to a serializer, part by part.
ghost use Rattle.std.specs.Prelude.{◌≡◌, OnOk, map};
ghost use Rattle.serde_json.specs.Data.{array};
ghost use Rattle.serde_json.specs.Events.{SendsValue};
ghost use Rattle.serde_json.specs.View.{items_of};
ghost use Rattle.value_json.specs.Sent.{SendsPlace};
ghost use Rattle.value_json_spec.specs.Patches.{op_text as op_text_of, path_data, patch_data, patches_data};
ghost use Rattle.value_json_spec.specs.Printing.{key_data};

use crate::sending::{Printed, send_key};
use serde::{Described, Serialize, Serializer};
use values::{Key, Op, Patch, Patches, Path};

/// Patches in the form of Immer 10, to be printed.
#[derive(Drop)]
pub struct PrintedPatches<'a> {
    pub patches: &'a Patches,
}

impl Described for PrintedPatches<'_> {
    ghost writes = { λ p. SendsValue (patches_data p.patches.now) };
}

impl Serialize for PrintedPatches<'_> {
    #[tactic(auto, unfolding(value_json_spec::specs::Patches::patches_data))]
    fn serialize<S: Serializer>(&self, out: &mut S) -> Result<(), S::Error> {
        send_list(self.patches.as_slice(), out)
    }
}

/// A path, to be printed as an array of its steps.
#[derive(Drop)]
pub struct PrintedPath<'a> {
    pub path: &'a Path,
}

impl Described for PrintedPath<'_> {
    ghost writes = { λ p. SendsValue (path_data p.path.now) };
}

impl Serialize for PrintedPath<'_> {
    fn serialize<S: Serializer>(&self, out: &mut S) -> Result<(), S::Error> {
        send_steps(self.path.as_slice(), out)
    }
}

fn send_list<S: Serializer>(patches: &[Patch], out: &mut S) -> Result<(), S::Error>
    ensures { OnOk result (SendsValue (array (items_of (map patch_data patches.now))) (S.written out.old) (S.written out.new)) }
{
    out.begin_seq(Some(patches.len()))?;
    for patch in patches {
        send_patch(patch, out)?;
    }
    out.end_seq()
}

#[tactic(auto, unfolding(value_json_spec::specs::Patches::patch_data))]
fn send_patch<S: Serializer>(patch: &Patch, out: &mut S) -> Result<(), S::Error>
    ensures { OnOk result (SendsValue (patch_data patch.now) (S.written out.old) (S.written out.new)) }
{
    match &patch.value {
        None => {
            send_place(patch, 2, out)?;
            out.end_map()
        }
        Some(value) => {
            send_place(patch, 3, out)?;
            out.key("value")?;
            Printed { value }.serialize(out)?;
            out.end_map()
        }
    }
}

/// The begin of a patch of so many members, with its first two, `op` and `path`.
fn send_place<S: Serializer>(patch: &Patch, members: usize, out: &mut S) -> Result<(), S::Error>
    ensures { OnOk result (SendsPlace members (op_text_of patch.now.op) (path_data patch.now.path) (S.written out.old) (S.written out.new)) }
{
    out.begin_map(Some(members))?;
    out.key("op")?;
    out.str(op_text(patch.op))?;
    out.key("path")?;
    send_steps(patch.path.as_slice(), out)
}

#[tactic(auto, unfolding(value_json_spec::specs::Patches::path_data))]
fn send_steps<S: Serializer>(steps: &[Key], out: &mut S) -> Result<(), S::Error>
    ensures { OnOk result (SendsValue (path_data steps.now) (S.written out.old) (S.written out.new)) }
{
    out.begin_seq(Some(steps.len()))?;
    for key in steps {
        send_key(key, out)?;
    }
    out.end_seq()
}

fn op_text(op: Op) -> &'static str
    ensures { result.now ≡ op_text_of op }
{
    match op {
        Op::Add => "add",
        Op::Replace => "replace",
        Op::Remove => "remove",
    }
}
