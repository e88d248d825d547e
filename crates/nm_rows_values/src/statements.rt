//! Literals, objects, reports of statements, and sets.
use nm_ident::{Ident, Name, NoMemory, Target, Text};
use nm_statement::{Change, Literal, Object, Set, Statement, TextError, line};
use std::alloc::Global;
use std::test::Fail;

/// The namespace of CIM 16.
const CIM: &[u8] = b"http://iec.ch/TC57/2013/CIM-schema-cim16#";

/// That the resource has this name.
fn name_of(alloc: Global, subject: u128, name: &[u8]) -> Result<Statement, Fail> {
    Ok(Statement {
        subject: Ident::Uuid(subject),
        predicate: Name::new(alloc, CIM, b"IdentifiedObject.name")?,
        object: Object::Literal(Literal::new(alloc, name)?),
    })
}

/// The numbers of the subjects, in the set's order.
fn subjects(alloc: Global, set: &Set) -> Result<Vec<u128>, NoMemory> {
    let mut subjects = Vec::new(alloc);
    for statement in set.iter() {
        if let Ident::Uuid(id) = &statement.subject {
            subjects.push(*id)?;
        }
    }
    Ok(subjects)
}

fn has_subjects(alloc: Global, set: &Set, due: &[u128]) -> Result<bool, NoMemory> {
    Ok(subjects(alloc, set)?.as_slice() == due)
}

fn is_refused(alloc: Global, text: &[u8], due: TextError) -> bool {
    match Literal::new(alloc, text) {
        Ok(_literal) => false,
        Err(error) => error == due,
    }
}

/// Whether no literal has so many bytes like this one, for that reason.
fn is_run_refused(alloc: Global, byte: u8, count: usize, due: TextError) -> Result<bool, NoMemory> {
    let text = vec![in alloc; byte; count]?;
    Ok(is_refused(alloc, &text, due))
}

fn is_literal_copied(alloc: Global, literal: &Literal) -> Result<bool, NoMemory> {
    Ok(literal.copy(alloc)? == *literal)
}

/// Whether there is a literal with this text, and it is copied.
fn is_literal(alloc: Global, text: &[u8]) -> Result<bool, NoMemory> {
    match Literal::new(alloc, text) {
        Ok(literal) => Ok(literal.as_slice() == text && is_literal_copied(alloc, &literal)?),
        Err(_error) => Ok(false),
    }
}

fn is_run_a_literal(alloc: Global, byte: u8, count: usize) -> Result<bool, NoMemory> {
    let text = vec![in alloc; byte; count]?;
    is_literal(alloc, &text)
}

#[test]
fn literals_have_at_most_65_536_bytes_of_xml_characters(rt: HostRuntime) -> Result<(), NoMemory> {
    let alloc = rt.alloc();
    assert!(rt; is_run_a_literal(alloc, b'a', 65_536)?);
    assert!(rt; is_run_refused(alloc, b'a', 65_537, TextError::Long)?);
    assert!(rt; is_run_refused(alloc, 0x1F, 65_537, TextError::Bad)?);
    assert!(rt; is_refused(alloc, b"\xEF\xBF\xBE", TextError::Bad));
    Ok(())
}

fn is_resource_kept(alloc: Global, id: u128) -> bool {
    let object = Object::of_target(alloc, Target::Ident(Ident::Uuid(id)));
    matches!(&object, Ok(Object::Resource(Ident::Uuid(number))) if *number == id)
}

/// The object that is an IRI of so many bytes like this one.
fn iri_of_run(alloc: Global, byte: u8, count: usize) -> Result<Object, TextError> {
    let text = vec![in alloc; byte; count]?;
    Object::of_target(alloc, Target::Iri(Text::of_list(text)))
}

fn is_iri(object: &Object, text: &[u8]) -> bool {
    matches!(object, Object::Iri(iri) if iri.as_slice() == text)
}

fn is_iri_of_run(alloc: Global, object: &Object, byte: u8, count: usize) -> Result<bool, NoMemory> {
    let text = vec![in alloc; byte; count]?;
    Ok(is_iri(object, &text))
}

fn is_object_copied(alloc: Global, object: &Object) -> Result<bool, NoMemory> {
    Ok(object.copy(alloc)? == *object)
}

fn is_iri_kept(alloc: Global, iri: &Object, byte: u8, count: usize) -> Result<bool, NoMemory> {
    Ok(is_iri_of_run(alloc, iri, byte, count)? && is_object_copied(alloc, iri)?)
}

/// Whether so many bytes like this one are an IRI, and it is copied.
fn is_run_an_iri(alloc: Global, byte: u8, count: usize) -> Result<bool, NoMemory> {
    match iri_of_run(alloc, byte, count) {
        Ok(iri) => is_iri_kept(alloc, &iri, byte, count),
        Err(_error) => Ok(false),
    }
}

fn is_iri_refused(alloc: Global, byte: u8, count: usize, due: TextError) -> bool {
    match iri_of_run(alloc, byte, count) {
        Ok(_iri) => false,
        Err(error) => error == due,
    }
}

#[test]
fn objects_keep_their_target(rt: HostRuntime) -> Result<(), NoMemory> {
    let alloc = rt.alloc();
    assert!(rt; is_resource_kept(alloc, 7));
    assert!(rt; is_run_an_iri(alloc, b'a', 2_048)?);
    assert!(rt; is_iri_refused(alloc, b'a', 2_049, TextError::Long));
    assert!(rt; is_iri_refused(alloc, 0x1F, 2_049, TextError::Bad));
    Ok(())
}

fn is_reported_as(alloc: Global, statement: &Statement, report: &[u8]) -> Result<bool, Fail> {
    Ok(line(alloc, statement)?.as_slice() == report)
}

fn is_name_reported_as(
    alloc: Global,
    subject: u128,
    name: &[u8],
    report: &[u8],
) -> Result<bool, Fail> {
    let statement = name_of(alloc, subject, name)?;
    is_reported_as(alloc, &statement, report)
}

#[test]
fn reports_a_name(rt: HostRuntime) -> Result<(), Fail> {
    let report =
        b"#_20000000-0000-4000-8000-000000000001 <http://iec.ch/TC57/2013/CIM-schema-cim16#IdentifiedObject.name> \"North\"";
    assert!(rt;
        is_name_reported_as(
            rt.alloc(),
            0x20000000_0000_4000_8000_000000000001,
            b"North",
            report
        )?
    );
    Ok(())
}

/// The set of these names of resources.
fn names(alloc: Global, names: &[(u128, &[u8])]) -> Result<Set, Fail> {
    let mut list = Vec::new(alloc);
    for (subject, name) in names {
        list.push(name_of(alloc, *subject, name)?)?;
    }
    Ok(Set::of_list(alloc, list)?)
}

fn contains(alloc: Global, set: &Set, subject: u128, name: &[u8]) -> Result<bool, Fail> {
    let statement = name_of(alloc, subject, name)?;
    Ok(set.contains(&statement))
}

/// Whether the names in the set are those of three resources, the second of which is `b`.
fn has_three(alloc: Global, set: &Set) -> Result<bool, Fail> {
    Ok(
        set.len() == 3
            && !set.is_empty()
            && has_subjects(alloc, set, &[1, 2, 3])?
            && contains(alloc, set, 2, b"b")?
            && !contains(alloc, set, 2, b"c")?,
    )
}

fn is_each_once(alloc: Global) -> Result<bool, Fail> {
    let set = names(alloc, &[(3, b"c"), (1, b"a"), (3, b"c"), (2, b"b")])?;
    has_three(alloc, &set)
}

#[test]
fn a_set_has_each_statement_once(rt: HostRuntime) -> Result<(), Fail> {
    assert!(rt; is_each_once(rt.alloc())?);
    Ok(())
}

fn has_union(alloc: Global, set: &Set, other: &Set, due: &[u128]) -> Result<bool, NoMemory> {
    let union = set.union(alloc, other)?;
    has_subjects(alloc, &union, due)
}

fn has_minus(alloc: Global, set: &Set, other: &Set, due: &[u128]) -> Result<bool, NoMemory> {
    let minus = set.minus(alloc, other)?;
    has_subjects(alloc, &minus, due)
}

/// Whether the other set is joined to this one, and taken away from it.
fn is_other_joined_and_taken_away(alloc: Global, set: &Set) -> Result<bool, Fail> {
    let other = names(alloc, &[(4, b"d"), (2, b"b"), (3, b"d")])?;
    Ok(has_union(alloc, set, &other, &[1, 2, 3, 3, 4])? && has_minus(alloc, set, &other, &[1, 3])?)
}

fn are_sets_joined_and_taken_away(alloc: Global) -> Result<bool, Fail> {
    let set = names(alloc, &[(1, b"a"), (2, b"b"), (3, b"c")])?;
    is_other_joined_and_taken_away(alloc, &set)
}

#[test]
fn sets_are_joined_and_taken_away(rt: HostRuntime) -> Result<(), Fail> {
    assert!(rt; are_sets_joined_and_taken_away(rt.alloc())?);
    Ok(())
}

/// That the first resource is called otherwise.
fn renaming(alloc: Global) -> Result<Change, Fail> {
    let rev = names(alloc, &[(1, b"North")])?;
    let fwd = names(alloc, &[(1, b"South")])?;
    let pre = names(alloc, &[])?;
    Ok(Change { pre, rev, fwd })
}

/// Whether the changes are the same, and ask for nothing.
fn is_same(copy: &Change, change: &Change) -> bool {
    copy.pre.is_empty()
        && copy.rev.as_slice() == change.rev.as_slice()
        && copy.fwd.as_slice() == change.fwd.as_slice()
}

fn is_change_copied(alloc: Global, change: &Change) -> Result<bool, Fail> {
    let copy = change.copy(alloc)?;
    Ok(is_same(&copy, change))
}

fn is_renaming_copied(alloc: Global) -> Result<bool, Fail> {
    let change = renaming(alloc)?;
    is_change_copied(alloc, &change)
}

#[test]
fn changes_are_copied(rt: HostRuntime) -> Result<(), Fail> {
    assert!(rt; is_renaming_copied(rt.alloc())?);
    Ok(())
}

/// Copies of the statement about 100,000 subjects, in no order.
fn copies_of(alloc: Global, statement: &mut Statement) -> Result<Vec<Statement>, NoMemory> {
    let mut list = Vec::new(alloc);
    for number in 0..100_000u32 {
        statement.subject = Ident::Uuid(u128::from(number * 7_919 % 100_000));
        list.push(statement.copy(alloc)?)?;
    }
    Ok(list)
}

fn set_of_copies(alloc: Global, statement: &mut Statement) -> Result<Set, NoMemory> {
    let list = copies_of(alloc, statement)?;
    Set::of_list(alloc, list)
}

/// Whether the set has the statement about each hundredth subject.
fn has_each_hundredth(set: &Set, statement: &mut Statement) -> bool {
    for number in 0..1_000u32 {
        statement.subject = Ident::Uuid(u128::from(number * 100));
        if !set.contains(statement) {
            return false;
        }
    }
    true
}

fn are_copies_found(alloc: Global, statement: &mut Statement) -> Result<bool, Fail> {
    let set = set_of_copies(alloc, statement)?;
    Ok(set.len() == 100_000 && has_each_hundredth(&set, statement))
}

fn is_large_set_searched(alloc: Global) -> Result<bool, Fail> {
    let mut statement = name_of(alloc, 0, b"North")?;
    are_copies_found(alloc, &mut statement)
}

#[test]
fn a_large_set_is_sorted_and_searched(rt: HostRuntime) -> Result<(), Fail> {
    assert!(rt; is_large_set_searched(rt.alloc())?);
    Ok(())
}
