// Replies of a session, as lists of bytes.
ghost use Rattle.std.specs.Prelude.{◌≡◌};

use std::marker::Model;

/// The bytes of a reply, with the line feed of its last line.
#[derive(Debug, Drop)]
pub struct Reply {
    bytes: Vec<u8>,
}

impl Model for Reply {
    ghost use Rattle.std.specs.Prelude.{ℕ, List};

    ghost Value = { List ℕ };

    ghost view = { λ reply. reply.bytes.items };
}

impl Reply {
    /// The reply of these bytes.
    pub fn of_list(list: Vec<u8>) -> Reply
        ensures { result ≡ list.items }
    {
        Reply { bytes: list }
    }

    /// The bytes.
    pub fn as_slice(&self) -> &[u8]
        ensures { result.now ≡ self.now }
    {
        &self.bytes
    }
}
