// Identifiers and names are shared among threads and sent to others. This does not compile where one
// of them could not be.
use crate::error::{IdentError, NameError};
use crate::ident::{Ident, Target};
use crate::ids::Ids;
use crate::name::Name;
use crate::text::{Text, Texts};

fn crosses_threads<T: Send + Sync>() {}

const _: fn() = crosses_threads::<Text>;

const _: fn() = crosses_threads::<Texts>;

const _: fn() = crosses_threads::<Ids>;

const _: fn() = crosses_threads::<Ident>;

const _: fn() = crosses_threads::<Target>;

const _: fn() = crosses_threads::<Name>;

const _: fn() = crosses_threads::<IdentError>;

const _: fn() = crosses_threads::<NameError>;
