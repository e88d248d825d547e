// Requests, routes and replies are shared among threads and sent to others. This does not compile
// where one of them could not be.
use crate::call::Route;
use crate::error::HttpError;
use crate::message::Request;
use crate::reply::HttpReply;
use crate::router::Routes;

fn crosses_threads<T: Send + Sync>() {}

const _: fn() = crosses_threads::<Request>;

const _: fn() = crosses_threads::<HttpError>;

const _: fn() = crosses_threads::<Route>;

const _: fn() = crosses_threads::<Routes>;

const _: fn() = crosses_threads::<HttpReply>;
