//! Versions for readers in other threads.
//!
//! [`open`] makes a store of a [`Version`](nm_version::Version), and [`Opening::parts`] hands out its
//! [`Keeper`] and its readers. The keeper commits and publishes, one command after another. A
//! [`Reader`] looks at what is published, without waiting for anybody, and keeps the version that it
//! found; a version that is held never changes. A [`Receipt`] of a commit can be learnt by any reader
//! of the same store, which then looks at nothing earlier. Which store that is, a [`Site`] names.
#![tactic(auto)]

mod count;
mod desk;
mod gate;
mod growth;
mod history;
mod keeper;
mod laws;
mod look;
mod opening;
mod piece;
mod reader;
mod receipt;
mod shown;
mod sight;
mod site;
mod threads;

pub use keeper::Keeper;
pub use laws::shares_add_up;
pub use look::Look;
pub use opening::{Opening, open};
pub use reader::Reader;
pub use receipt::Receipt;
pub use shown::Held;
pub use site::Site;
