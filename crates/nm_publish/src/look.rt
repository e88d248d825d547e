// What a look gives.
use crate::shown::Held;

/// What a look gives.
#[derive(Drop)]
pub enum Look {
    /// The version at an entering that this look made.
    Fresh(Held),
    /// The version that the reader keeps: this look was granted no entering.
    Last(Held),
}
