// The namespaces that a canonical document uses.
ghost use Rattle.nm_statement.specs.Set.{IsRising};
ghost use Rattle.nm_writer.specs.Canonical.{class_namespaces, element_of, namespace_of, namespaces_in};
ghost use Rattle.nm_writer.specs.Namespaces.{with_namespace};
ghost use Rattle.std.specs.List.{fold};
ghost use Rattle.std.specs.Prelude.{◌≡◌, map, OnOk};

use crate::element::{element_class, split_group};
use crate::prefixes::Namespaces;
use nm_ident::NoMemory;
use nm_statement::{Set, Statement};
use std::alloc::Global;

/// Adds the namespaces of predicates, and of the classes that name elements.
pub fn add_namespaces(
    alloc: Global,
    namespaces: &mut Namespaces,
    statements: &Set,
) -> Result<(), NoMemory>
    ensures { OnOk result (namespaces.new ≡ fold with_namespace namespaces.old (namespaces_in statements.now)) }
{
    let statements = statements.as_slice();
    add_predicate_namespaces(alloc, namespaces, statements)?;
    add_class_namespaces(alloc, namespaces, statements)
}

fn add_predicate_namespaces(
    alloc: Global,
    namespaces: &mut Namespaces,
    statements: &[Statement],
) -> Result<(), NoMemory>
    ensures { OnOk result (namespaces.new ≡ fold with_namespace namespaces.old (map (λ statement. statement.predicate.ns) statements.now)) }
{
    for statement in statements {
        namespaces.add(alloc, statement.predicate.ns().as_slice())?;
    }
    Ok(())
}

fn add_class_namespaces(
    alloc: Global,
    namespaces: &mut Namespaces,
    statements: &[Statement],
) -> Result<(), NoMemory>
    requires { IsRising statements.now }
    ensures { OnOk result (namespaces.new ≡ fold with_namespace namespaces.old (class_namespaces statements.now)) }
{
    let mut rest = statements;
    while !rest.is_empty() {
        let (group, after) = split_group(rest);
        add_class_namespace(alloc, namespaces, group)?;
        rest = after;
    }
    Ok(())
}

fn add_class_namespace(
    alloc: Global,
    namespaces: &mut Namespaces,
    group: &[Statement],
) -> Result<(), NoMemory>
    ensures { OnOk result (namespaces.new ≡ fold with_namespace namespaces.old (namespace_of (element_of group.now))) }
{
    match element_class(group) {
        Some((_, class)) => namespaces.add(alloc, class.ns),
        None => Ok(()),
    }
}
