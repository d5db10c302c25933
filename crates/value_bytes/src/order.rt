ghost use Rattle.std.specs.Prelude.{◌≡◌, map};
ghost use Rattle.value_model.specs.declared.kind.Kind.TheVariants as kind;
ghost use Rattle.values.specs.Seen.{of_field, of_entry, of_member};
ghost use Rattle.value_bytes_spec.specs.Reading.{follows};
ghost use Rattle.value_bytes.specs.Runs.{last_key};

use values::{Entry, Field, Key, Text};

/// Whether a field of this key may stand behind these.
pub(crate) fn is_next_field(fields: &[Field], key: &Text) -> bool
    ensures { result ≡ follows kind.Obj (last_key (map of_field fields.now)) (Key.Text key.now) }
{
    match fields.last() {
        None => true,
        Some(last) => last
            .key
            .as_str()
            .as_bytes()
            .cmp(key.as_str().as_bytes())
            .is_lt(),
    }
}

/// Whether an entry of this key may stand behind these.
pub(crate) fn is_next_entry(entries: &[Entry], key: &Key) -> bool
    ensures { result ≡ follows kind.Map (last_key (map of_entry entries.now)) key.now }
{
    match entries.last() {
        None => true,
        Some(last) => last.key.compare(key).is_lt(),
    }
}

/// Whether this member may stand behind these.
pub(crate) fn is_next_member(members: &[Key], key: &Key) -> bool
    ensures { result ≡ follows kind.Set (last_key (map of_member members.now)) key.now }
{
    match members.last() {
        None => true,
        Some(last) => last.compare(key).is_lt(),
    }
}
