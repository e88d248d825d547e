// The documents that commands bring.
ghost use Rattle.nm_session.specs.Body as spec;
ghost use Rattle.nm_session.specs.Input.{Spells};
ghost use Rattle.std.specs.Prelude.{◌≡◌, IfOk};

use nm_base::NoMemory;
use nm_ident::Text;
use nm_model::Document;
use nm_reader::{Fault, ReadError, read};
use std::alloc::Global;

/// The bytes of a document, as they were read.
#[derive(Drop)]
pub enum Spelling {
    /// They state a model.
    Good { document: Document, bytes: Text },
    /// They have a fault.
    Bad(Fault),
}

impl Spelling {
    /// What the bytes state, or their fault.
    pub(crate) fn read(alloc: Global, bytes: Vec<u8>) -> Result<Spelling, NoMemory>
        ensures { IfOk result (λ spelling. Spells spelling bytes.items) }
    {
        match read(alloc, &bytes) {
            Ok(document) => Ok(Spelling::Good {
                document,
                bytes: Text::of_list(bytes),
            }),
            Err(ReadError::Fault(fault)) => Ok(Spelling::Bad(fault)),
            Err(ReadError::NoMemory) => Err(NoMemory),
        }
    }
}

/// What a command brings beside its line.
#[derive(Drop)]
pub enum Body {
    /// No document: the line has no length.
    Absent,
    /// A document and its bytes.
    Document { document: Document, bytes: Text },
    /// A document with a fault.
    Fault(Fault),
}

impl From<Spelling> for Body {
    ghost from_gives = { λ spelling body. body ≡ spec.body_spelt spelling };

    fn from(spelling: Spelling) -> Body {
        match spelling {
            Spelling::Good { document, bytes } => Body::Document { document, bytes },
            Spelling::Bad(fault) => Body::Fault(fault),
        }
    }
}
