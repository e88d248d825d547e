// Lists in which nothing stands twice.
ghost use Rattle.nm_reader.specs.Namespaces.{are_distinct_by};
ghost use Rattle.std.specs.Prelude.{◌≡◌};

/// Whether no two of the items are equal.
pub fn are_distinct<T: Ord + Drop>(items: Vec<T>) -> bool
    ensures { result ≡ are_distinct_by T.eq items.items }
{
    let count = items.len();
    let mut kept = items;
    kept.sort_unstable();
    kept.dedup();
    kept.len() == count
}
