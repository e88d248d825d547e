//! Sessions and documents that tests of several crates share, with what is written of them.
#![tactic(auto)]

mod documents;
mod exports;
mod sessions;

pub use documents::{full_model, joined};
pub use exports::{EQUIPMENT, EQUIPMENT_WRITTEN};
pub use sessions::{
    ANOTHER_NAME, ANOTHER_NAME_REPLIES, BARE_BASE, BARE_BASE_REPLIES, FIRST_AND_LAST_DAY,
    FIRST_AND_LAST_DAY_REPLIES, NORTH, NORTH_REPLIES, RENAMED, RENAMED_AGAIN,
    RENAMED_AGAIN_REPLIES, RENAMED_REPLIES,
};
