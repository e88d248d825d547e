// The words of the command line that ask for the service.
ghost use Rattle.nm_service.specs.Arguments as spec;
ghost use Rattle.std.specs.Prelude.{◌≡◌, ◌≤◌, IfSome, map, string_bytes};

use crate::limits::{LARGEST_PORT, MOST_CONNECTIONS, MOST_WORKERS};
use nm_session::numeral_within;

/// The numbers of the words `serve PORT WORKERS COUNT`: the port that is listened on, 1 to 65,535; how
/// many workers there are, 1 to 32; and how many connections each serves, 1 to 1,000,000. They are
/// decimal digits without a leading zero. `None` for any other words.
///
/// `serve 8080 4 1000` gives 8080, 4 and 1000.
pub fn serve_form(words: &Vec<String>) -> Option<(u16, u32, u32)>
    ensures { result ≡ spec.serve_form (map string_bytes words.now.items) }
{
    match words.as_slice() {
        [word, port, workers, count] => serve_with(
            word.as_str(),
            port.as_str(),
            workers.as_str(),
            count.as_str(),
        ),
        _ => None,
    }
}

fn serve_with(word: &str, port: &str, workers: &str, count: &str) -> Option<(u16, u32, u32)>
    ensures { result ≡ spec.serve_with word.now port.now workers.now count.now }
{
    if word != "serve" {
        return None;
    }
    let port = positive_within(LARGEST_PORT, port)?;
    let workers = positive_within(MOST_WORKERS, workers)?;
    let count = positive_within(MOST_CONNECTIONS, count)?;
    Some((port as u16, workers as u32, count as u32))
}

/// The number, 1 to `most`, that the digits spell.
fn positive_within(most: u64, digits: &str) -> Option<u64>
    requires { most ≤ u32.MAX }
    ensures number { result ≡ spec.positive_within most digits.now }
    ensures bound { IfSome result (λ number. number ≤ most) }
{
    let number = numeral_within(most, digits.as_bytes())?;
    if number == 0 {
        return None;
    }
    Some(number)
}
