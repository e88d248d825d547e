// Why a request is not taken.
ghost use Rattle.nm_http.specs.declared.error.HttpError.TheVariants as errors;
ghost use Rattle.std.specs.Prelude.{◌≡◌};

use nm_ident::NoMemory;

/// Why a request is not taken.
#[derive(Clone, Copy, Debug, PartialEq, Eq)]
pub enum HttpError {
    /// The status of the reply: 400, 404, 405, 411, 431 or 501.
    Status(u16),
    /// There is no memory for what the request says.
    NoMemory,
}

impl From<NoMemory> for HttpError {
    ghost from_gives = { λ _ error. error ≡ errors.NoMemory };

    fn from(_: NoMemory) -> HttpError {
        HttpError::NoMemory
    }
}
