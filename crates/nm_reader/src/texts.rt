// Texts in their places.
ghost use Rattle.nm_reader.specs.Meaning.{listed, told_at_end as told_at_end_of};
ghost use Rattle.nm_reader.specs.Taken.{IsTextRefusal, is_sound_place, text_code};
ghost use Rattle.nm_reader.specs.Texts as spec;
ghost use Rattle.std.specs.Prelude.{◌≡◌, MatchResult, None, true};

use crate::fact::Fact;
use crate::fault::Code;
use crate::place::{Owner, Place};
use crate::refusal::Refusal;
use nm_ident::Text;
use nm_piece::RawText;
use nm_statement::{LONGEST_LITERAL, Literal, Object, Statement};
use std::alloc::Global;

/// The place behind the text: a literal is all the texts inside its element, joined. Elsewhere a text
/// is white, but inside a property that is not kept.
pub fn with_text(alloc: Global, place: Place, text: &RawText<'_>) -> Result<Place, Refusal>
    ensures { MatchResult result
        (λ behind. (text_code place text.now ≡ None) × (behind ≡ spec.with_text place text.now))
        (λ refusal. IsTextRefusal refusal place text.now) }
{
    match place {
        Place::InLiteral {
            owner,
            text: before,
        } => {
            let mut bytes = before.into_list();
            text.append_to(&mut bytes)?;
            if bytes.len() > LONGEST_LITERAL {
                return Err(Refusal::Rule(Code::Limit));
            }
            Ok(Place::InLiteral {
                owner,
                text: Text::of_list(bytes),
            })
        }
        Place::InSkipped => Ok(Place::InSkipped),
        _ => {
            if text.is_white(alloc)? {
                Ok(place)
            } else {
                Err(Refusal::Rule(Code::Text))
            }
        }
    }
}

/// Whether the element in whose place this is, or the document, may end here.
pub fn may_end(place: &Place) -> bool
    ensures { result ≡ spec.may_end place.now }
{
    !matches!(place, Place::BeforeRoot | Place::InRoot)
}

/// Whether the root is behind.
pub fn is_after_root(place: &Place) -> bool
    ensures { result ≡ spec.is_after_root place.now }
{
    matches!(place, Place::AfterRoot)
}

/// What the end of an element tells: the literal of a property.
pub fn told_at_end(place: Place) -> Option<Fact>
    requires { is_sound_place place ≡ true }
    ensures { listed result ≡ told_at_end_of place }
{
    match place {
        Place::InLiteral { owner, text } => {
            let literal = Literal::of_text(text);
            Some(match owner {
                Owner::OfModel { property } => Fact::Tells {
                    property,
                    text: literal,
                },
                Owner::OfSubject {
                    part,
                    subject,
                    predicate,
                } => Fact::States {
                    part,
                    statement: Statement {
                        subject,
                        predicate,
                        object: Object::Literal(literal),
                    },
                },
            })
        }
        _ => None,
    }
}
