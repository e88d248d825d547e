// Laws of this crate's definitions, stated for the contracts of the crates above. They take no
// time: a call brings the law to a proof.
ghost use Rattle.nm_ident.specs.Laws as law;
ghost use Rattle.nm_ident.specs.Order.{ident_cmp, name_cmp};
ghost use Rattle.nm_ident.specs.QualifiedName.{QualifiedName};
ghost use Rattle.nm_ident.specs.declared.ident.Ident as declared;
ghost use Rattle.std.specs.Ordering.{eq_by_cmp};
ghost use Rattle.std.specs.Prelude.{◌≡◌, Some};

use crate::ident::Ident;
use crate::name::Name;

/// The three spellings of a UUID give one identifier: `_` and its text behind `rdf:ID`, `#_` and
/// its text behind `rdf:about`, and `urn:uuid:` and its text there (IEC 61970-552).
pub fn spellings_agree()
    ensures { law.SpellingsAgree }
{}

/// The hyphenated text that is written of a number reads back as that number, and has 36 bytes:
/// digits, `a` to `f` and `-`.
pub fn uuid_texts_read_back()
    ensures { law.UuidTextsReadBack }
{}

/// The text that names an identifier is a name, and gives the identifier back, as the text of an
/// `rdf:ID` and behind `#`.
pub fn ids_read_back()
    ensures { law.IdsReadBack }
{}

/// Every identifier that is read is the number of a UUID, or a name that is not `_` and a UUID.
pub fn read_idents_are_sound()
    ensures { law.ReadIdentsAreSound }
{}

/// The orders of identifiers and names are total, and only equal values stand level.
pub fn orders_are_total()
    ensures total { law.OrdersAreTotal }
    ensures apart { law.OrdersTellApart }
{}

/// `cmp`, `partial_cmp` and `==` of identifiers go by their order: UUIDs by their numbers, before
/// local identifiers by their bytes.
pub fn idents_are_ordered()
    ensures by_cmp { (x y : declared.Ident) → ⟦<Ident as Ord>⟧.cmp x y ≡ ident_cmp x y }
    ensures by_partial_cmp { (x y : declared.Ident) → ⟦<Ident as PartialOrd>⟧.partial_cmp x y ≡ Some (ident_cmp x y) }
    ensures by_eq { (x y : declared.Ident) → ⟦<Ident as PartialEq>⟧.eq x y ≡ eq_by_cmp ident_cmp x y }
{}

/// `cmp`, `partial_cmp` and `==` of names go by their order: by namespace, and then by local name.
pub fn names_are_ordered()
    ensures by_cmp { (x y : QualifiedName) → ⟦<Name as Ord>⟧.cmp x y ≡ name_cmp x y }
    ensures by_partial_cmp { (x y : QualifiedName) → ⟦<Name as PartialOrd>⟧.partial_cmp x y ≡ Some (name_cmp x y) }
    ensures by_eq { (x y : QualifiedName) → ⟦<Name as PartialEq>⟧.eq x y ≡ eq_by_cmp name_cmp x y }
{}
