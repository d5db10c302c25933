//! Setting and removing an entry of a table, its keys kept in order.
ghost use Rattle.std.specs.Prelude.{◌≡◌, ◌<◌, map, length, IfOk, OnOk, IsTrue, slice_index_or};
ghost use Rattle.std.proofs.Common.{set};
ghost use Rattle.std.specs.FinMap.Entries.{put, is_sorted};
ghost use Rattle.value_model.specs.Order.{key_cmp};
ghost use Rattle.value_model.specs.Places.{without_key};
ghost use Rattle.value_model.specs.Plain.{prim};
ghost use Rattle.value_model.specs.declared.key.Key.TheVariants as key_of;
ghost use Rattle.values.specs.Seen.{of_field, of_entry, of_member};

use std::alloc::AllocError;
use value_checks::{entry_place, field_place, member_place};
use values::{Entry, Field, Key, Text, Val};

pub(crate) fn put_field(fields: &mut Vec<Field>, key: Text, value: Val) -> Result<(), AllocError>
    requires { IsTrue (is_sorted key_cmp (map of_field fields.old.items)) }
    ensures { OnOk result (map of_field fields.new.items ≡ put key_cmp (key_of.Text key) value (map of_field fields.old.items)) }
{
    match field_place(fields, &key) {
        Ok(at) => {
            fields[at] = Field { key, value };
            Ok(())
        }
        Err(at) => Ok(fields.insert(at, Field { key, value })?),
    }
}

pub(crate) fn put_entry(entries: &mut Vec<Entry>, key: Key, value: Val) -> Result<(), AllocError>
    requires { IsTrue (is_sorted key_cmp (map of_entry entries.old.items)) }
    ensures { OnOk result (map of_entry entries.new.items ≡ put key_cmp key value (map of_entry entries.old.items)) }
{
    match entry_place(entries, &key) {
        Ok(at) => {
            entries[at] = Entry { key, value };
            Ok(())
        }
        Err(at) => Ok(entries.insert(at, Entry { key, value })?),
    }
}

pub(crate) fn put_member(members: &mut Vec<Key>, key: Key) -> Result<(), AllocError>
    requires { IsTrue (is_sorted key_cmp (map of_member members.old.items)) }
    ensures { OnOk result (map of_member members.new.items ≡ put key_cmp key (prim key) (map of_member members.old.items)) }
{
    match member_place(members, &key) {
        Ok(at) => {
            members[at] = key;
            Ok(())
        }
        Err(at) => Ok(members.insert(at, key)?),
    }
}

pub(crate) fn remove_field(fields: &mut Vec<Field>, key: &Text)
    requires { IsTrue (is_sorted key_cmp (map of_field fields.old.items)) }
    ensures { map of_field fields.new.items ≡ without_key (key_of.Text key.now) (map of_field fields.old.items) }
{
    match field_place(fields, key) {
        Ok(at) => {
            let _ = fields.remove(at);
        }
        Err(_) => {}
    }
}

pub(crate) fn remove_entry(entries: &mut Vec<Entry>, key: &Key)
    requires { IsTrue (is_sorted key_cmp (map of_entry entries.old.items)) }
    ensures { map of_entry entries.new.items ≡ without_key key.now (map of_entry entries.old.items) }
{
    match entry_place(entries, key) {
        Ok(at) => {
            let _ = entries.remove(at);
        }
        Err(_) => {}
    }
}

pub(crate) fn remove_member(members: &mut Vec<Key>, key: &Key)
    requires { IsTrue (is_sorted key_cmp (map of_member members.old.items)) }
    ensures { map of_member members.new.items ≡ without_key key.now (map of_member members.old.items) }
{
    match member_place(members, key) {
        Ok(at) => {
            let _ = members.remove(at);
        }
        Err(_) => {}
    }
}
