// Lists of entries in the order of their keys.
ghost use Rattle.nm_day.specs.Key.{key_cmp};
ghost use Rattle.nm_timeline.specs.Timeline as spec;
ghost use Rattle.std.specs.List.{prefix_len};
ghost use Rattle.std.specs.Ordering.{is_lt};
ghost use Rattle.std.specs.Prelude.{◌≡◌, ◌++◌, OnOk};

use crate::mark::Mark;
use nm_day::Key;
use nm_ident::NoMemory;

/// Appends the entries at other keys than these.
pub(crate) fn append_without(
    kept: &mut Vec<(Key, Mark)>,
    entries: &[(Key, Mark)],
    keys: &[Key],
) -> Result<(), NoMemory>
    ensures { OnOk result (kept.new.items ≡ kept.old.items ++ spec.without_keys keys.now entries.now) }
{
    for entry in entries {
        if !has_key(keys, &entry.0) {
            kept.push(*entry)?;
        }
    }
    Ok(())
}

/// Whether the key is one of these.
fn has_key(keys: &[Key], key: &Key) -> bool
    ensures { result ≡ spec.has_key keys.now key.now }
{
    keys.contains(key)
}

/// Puts each of `added` at its place.
pub(crate) fn add_entries(
    entries: &mut Vec<(Key, Mark)>,
    added: &[(Key, Mark)],
) -> Result<(), NoMemory>
    requires { spec.CanAdd entries.old.items added.now }
    ensures { OnOk result (entries.new.items ≡ spec.with_entries entries.old.items added.now) }
{
    for entry in added {
        let place = count_before(entries, &entry.0);
        entries.insert(place, *entry)?;
    }
    Ok(())
}

/// How many entries, from the first on, stand before the key.
fn count_before(entries: &[(Key, Mark)], key: &Key) -> usize
    ensures { result ≡ prefix_len (λ entry. is_lt (key_cmp entry.0 key.now)) entries.now }
{
    entries
        .iter()
        .position(|entry| entry.0 >= *key)
        .unwrap_or(entries.len())
}
