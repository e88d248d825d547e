// What a session is made of may be shared among threads and sent to others. This does not compile
// where one of these could not be.
use crate::body::Body;
use crate::input::Input;
use crate::reply::Reply;
use crate::start::OpeningError;
use crate::state::State;
use crate::stop::Stop;
use crate::word::Word;

fn crosses_threads<T: Send + Sync>() {}

const _: fn() = crosses_threads::<State>;

const _: fn() = crosses_threads::<Body>;

const _: fn() = crosses_threads::<Word<'static>>;

const _: fn() = crosses_threads::<Reply>;

const _: fn() = crosses_threads::<Input>;

const _: fn() = crosses_threads::<Stop>;

const _: fn() = crosses_threads::<OpeningError>;
