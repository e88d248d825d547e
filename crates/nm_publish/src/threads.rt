// A keeper, a reader and a receipt are sent to other threads. This does not compile where one of
// them could not be.
use crate::keeper::Keeper;
use crate::look::Look;
use crate::opening::Opening;
use crate::reader::Reader;
use crate::receipt::Receipt;
use crate::shown::Held;
use crate::site::Site;
use std::marker::{Brand, PhantomData};
use std::sync::Wait;

fn is_sent<T: Send>() {}

const _: fn() = is_sent::<Reader<Brand>>;

const _: fn() = is_sent::<Receipt<Brand>>;

const _: fn() = is_sent::<Look>;

const _: fn() = is_sent::<Held>;

/// The same of every site.
fn readers_are_sent<H: Site + Send>() {
    is_sent::<Reader<H>>();
}

fn receipts_are_sent<H: Site + Send>() {
    is_sent::<Receipt<H>>();
}

struct Sent<T: Send> {
    of: PhantomData<T>,
}

/// The same of every site and every handle that can be sent: proofs/Crossing.antt has it too.
struct AllAreSent<H: Site + Send, R: Wait + Drop + Send> {
    opening: Sent<Opening<R>>,
    keeper: Sent<Keeper<H, R>>,
}
