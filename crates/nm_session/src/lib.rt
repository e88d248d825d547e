//! The session over a store: command lines, their replies, and streams of them.
#![tactic(auto)]

mod ahead;
mod answer;
mod body;
mod changes;
mod digits;
mod halt;
mod input;
mod interruption;
mod laws;
mod limits;
mod reply;
mod start;
mod state;
mod stop;
mod stream;
mod taking;
mod threads;
mod turn;
mod word;

pub use answer::{append_count, fault_line, refused};
pub use body::{Body, Spelling};
pub use digits::numeral_within;
pub use input::Input;
pub use laws::logs_open_again;
pub use reply::Reply;
pub use start::{OpeningError, opening};
pub use state::State;
pub use stop::Stop;
pub use stream::session;
pub use turn::{query, step};
pub use word::{BadLine, Word, line};
