// The identifiers, names and statements of generated models.
ghost use Rattle.nm_gen.specs.Terms as spec;
ghost use Rattle.nm_ident.specs.Name.{is_predicate};
ghost use Rattle.std.specs.Fmt.{decimal};
ghost use Rattle.std.specs.Prelude.{◌≡◌, ◌∷◌, ◌++◌, true, IfOk};

use nm_ident::{Ident, Name, NameError, NoMemory, RDF_NAMESPACE, Text};
use nm_statement::{Literal, Object, Statement};
use std::alloc::Global;

/// The namespace of classes and properties.
const NAMESPACE: &[u8] = b"http://iec.ch/TC57/2013/CIM-schema-cim16#";

const NAME_PROPERTY: &[u8] = b"IdentifiedObject.name";

/// The first group of digits of an identifier, where it is 1.
const FIRST_GROUP: u128 = 0x1_0000_0000_0000_0000_0000_0000;

/// The groups in the middle of each identifier, which are those of a UUID of version 4.
const MIDDLE_GROUPS: u128 = 0x4000_8000_0000_0000_0000;

/// The identifier of the base.
pub fn base_id() -> u128
    ensures { result ≡ spec.base_id }
{
    id(0, 0)
}

/// The identifier of a substation.
pub fn substation_id(number: u32) -> u128
    ensures { result ≡ spec.substation_id number }
{
    id(1, number)
}

/// The identifier of a project.
pub fn project_id(number: u32) -> u128
    ensures { result ≡ spec.project_id number }
{
    id(2, number)
}

/// The identifier of a voltage level.
pub fn level_id(number: u32) -> u128
    ensures { result ≡ spec.level_id number }
{
    id(3, number)
}

/// `0000000K-0000-4000-8000-` and the number in twelve hexadecimal digits.
fn id(kind: u8, number: u32) -> u128
    ensures { result ≡ spec.id_of kind number }
{
    u128::from(kind) * FIRST_GROUP + MIDDLE_GROUPS + u128::from(number)
}

/// The name of a substation, as the base has it.
pub fn substation_name(alloc: Global, number: u32) -> Result<Literal, NoMemory>
    ensures { IfOk result (λ name. name ≡ spec.substation_name number) }
{
    let name = numbered(alloc, b'S', number)?;
    Ok(Literal::of_text(Text::of_list(name)))
}

/// The name that a project gives a substation.
pub fn other_name(alloc: Global, number: u32) -> Result<Literal, NoMemory>
    ensures { IfOk result (λ name. name ≡ spec.other_name number) }
{
    let mut name = numbered(alloc, b'S', number)?;
    name.push(b'r')?;
    Ok(Literal::of_text(Text::of_list(name)))
}

/// The name of a voltage level.
pub fn level_name(alloc: Global, number: u32) -> Result<Literal, NoMemory>
    ensures { IfOk result (λ name. name ≡ spec.level_name number) }
{
    let name = numbered(alloc, b'V', number)?;
    Ok(Literal::of_text(Text::of_list(name)))
}

/// A letter and a number.
fn numbered(alloc: Global, letter: u8, number: u32) -> Result<Vec<u8>, NoMemory>
    ensures { IfOk result (λ name. name.items ≡ letter ∷ decimal number) }
{
    let mut name = Vec::new(alloc);
    name.push(letter)?;
    name.extend_from_slice(number.to_string(alloc)?.as_bytes())?;
    Ok(name)
}

/// That the object is of the class.
pub fn of_class(alloc: Global, id: u128, class: &[u8]) -> Result<Statement, NoMemory>
    ensures { IfOk result (λ statement. statement ≡ spec.is_of_class id class.now) }
{
    let mut iri = NAMESPACE.to_vec(alloc)?;
    iri.extend_from_slice(class)?;
    Ok(Statement {
        subject: Ident::Uuid(id),
        predicate: predicate(alloc, RDF_NAMESPACE, b"type")?,
        object: Object::Iri(Text::of_list(iri)),
    })
}

/// That the object has the name.
pub fn named(alloc: Global, id: u128, name: Literal) -> Result<Statement, NoMemory>
    ensures { IfOk result (λ statement. statement ≡ spec.is_named id name) }
{
    Ok(Statement {
        subject: Ident::Uuid(id),
        predicate: predicate(alloc, NAMESPACE, NAME_PROPERTY)?,
        object: Object::Literal(name),
    })
}

/// The name of a property that is known to be one.
fn predicate(alloc: Global, ns: &[u8], local: &[u8]) -> Result<Name, NoMemory>
    requires { is_predicate (record { ns = ns.now; local = local.now }) ≡ true }
    ensures { IfOk result (λ name. name ≡ record { ns = ns.now; local = local.now }) }
{
    match Name::new(alloc, ns, local) {
        Ok(name) => Ok(name),
        Err(NameError::NoMemory) => Err(NoMemory),
        Err(NameError::Bad) => unreachable!(),
    }
}
