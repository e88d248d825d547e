//! Text of XML 1.0: its characters, white space, ends of lines, references and escapes.
//!
//! All calls take and give UTF-8 as bytes. [`read_run`], [`normal_lines`] and [`read_attribute`] read
//! what a text between tags, a CDATA section and an attribute's value stand for, and [`escape_text`]
//! and [`escape_attribute`] spell a text so that it is read again as it was.
#![tactic(auto)]

mod character;
mod error;
mod escape;
mod laws;
mod lines;
mod meaning;
mod reference;
mod sound;
mod split;
mod white;

pub use character::{Place, is_text};
pub use error::{NoMemory, RefError};
pub use escape::{append_escaped_attribute, append_escaped_text, escape_attribute, escape_text};
pub use laws::{
    references_name_characters, spellings_read_back, texts_are_told_by_bytes, texts_stay_texts,
};
pub use lines::{append_lines, normal_lines};
pub use meaning::{append_attribute, append_run, read_attribute, read_references, read_run};
pub use reference::{begins_reference, reference_at};
pub use sound::are_references_sound;
pub use split::split_before;
pub use white::{is_white, is_white_text};
