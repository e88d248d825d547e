// The attributes of a tag, where they stand in the input.
ghost use Rattle.nm_piece.specs.Raw.{attribute_of};
ghost use Rattle.std.specs.Prelude.{◌≡◌, IfOk};

use nm_ident::{NoMemory, Text};
use nm_piece::{RawAttribute, RawAttributes, RawName, RawValue};
use std::alloc::Global;
use std::marker::Model;

/// The value of an attribute.
#[derive(Drop)]
pub enum Value<'a> {
    /// Where it stands in the input, which spells it as it is.
    Lent(&'a [u8]),
    /// In memory of its own, where it is spelt otherwise.
    Made(Text),
}

/// An attribute of a tag.
///
/// Clauses see what it stands for.
#[derive(Drop)]
pub struct TagAttribute<'a> {
    pub name: RawName<'a>,
    pub value: Value<'a>,
}

impl<'a> Model for TagAttribute<'a> {
    ghost use Rattle.nm_piece.specs.Raw.{name_of};
    ghost use Rattle.nm_piece.specs.declared.piece.Attribute.{Attribute};
    ghost use Rattle.nm_reader.specs.Lent.{value_of};

    ghost Value = { Attribute };

    ghost view = { λ attribute. record { name = name_of attribute.name; value = value_of attribute.value } };
}

impl<'a> TagAttribute<'a> {
    /// The same attribute, of which no more is copied than has to be.
    fn of_raw(alloc: Global, raw: RawAttribute<'a>) -> Result<TagAttribute<'a>, NoMemory>
        ensures { IfOk result (λ attribute. attribute ≡ attribute_of raw.entry) }
    {
        let RawAttribute { name, value } = raw;
        let value = match value.as_spelt() {
            Some(lent) => Value::Lent(lent),
            None => Value::Made(made_of(alloc, &value)?),
        };
        Ok(TagAttribute { name, value })
    }

    /// What the value stands for.
    pub fn value(&self) -> &[u8]
        ensures { result.now ≡ self.now.value }
    {
        match &self.value {
            Value::Lent(value) => value,
            Value::Made(value) => value.as_slice(),
        }
    }
}

/// What the value stands for, in memory of its own.
fn made_of(alloc: Global, value: &RawValue<'_>) -> Result<Text, NoMemory>
    ensures { IfOk result (λ text. text ≡ value.now) }
{
    let mut text = Vec::new(alloc);
    value.append_to(&mut text)?;
    Ok(Text::of_list(text))
}

/// The attributes of a tag, in the order in which they stand there.
pub fn attributes_of<'a>(
    alloc: Global,
    mut attributes: RawAttributes<'a>,
) -> Result<Vec<TagAttribute<'a>>, NoMemory>
    ensures { IfOk result (λ list. list.items ≡ attributes.entry) }
{
    let mut list = Vec::new(alloc);
    while let Some(attribute) = attributes.next_attribute() {
        list.push(TagAttribute::of_raw(alloc, attribute)?)?;
    }
    Ok(list)
}
