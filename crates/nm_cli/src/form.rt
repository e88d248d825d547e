// The forms of the command line, by their words.
ghost use Rattle.nm_cli.specs.CommandLine as spec;
ghost use Rattle.std.specs.Prelude.{◌≡◌, IfSome, map, string_bytes};

use nm_gen::MOST_PROJECTS;
use nm_session::numeral_within;

/// What the words after the program's name ask for.
#[derive(Clone, Copy, Debug, PartialEq, Eq)]
pub enum Form {
    /// A session: its commands are answered.
    Session,
    /// The canonical document of a document.
    Canon,
    /// What a document is, and how many statements it has.
    Check,
    /// A generated session.
    Gen {
        /// How many projects it has, 1 to 2,000.
        projects: u32,
        /// What its draws begin with.
        seed: u32,
    },
}

impl Form {
    /// The form of these words: `session`, `canon` or `check` alone, or `gen N SEED` with numbers
    /// in decimal digits without a leading zero, `N` from 1 to 2,000 and `SEED` to 4,294,967,295.
    /// `None` for any other words.
    pub fn parse(words: &Vec<String>) -> Option<Form>
        ensures form { result ≡ spec.form_of (map string_bytes words.now.items) }
        ensures projects { IfSome result (λ form. spec.HasProjects form) }
    {
        match words.as_slice() {
            [word] => form_named(word.as_str()),
            [word, projects, seed] => {
                form_with_numbers(word.as_str(), projects.as_str(), seed.as_str())
            }
            _ => None,
        }
    }
}

fn form_named(word: &str) -> Option<Form>
    ensures form { result ≡ spec.form_named word.now }
    ensures projects { IfSome result (λ form. spec.HasProjects form) }
{
    if word == "session" {
        Some(Form::Session)
    } else if word == "canon" {
        Some(Form::Canon)
    } else if word == "check" {
        Some(Form::Check)
    } else {
        None
    }
}

fn form_with_numbers(word: &str, projects: &str, seed: &str) -> Option<Form>
    ensures form { result ≡ spec.form_with_numbers word.now projects.now seed.now }
    ensures projects { IfSome result (λ form. spec.HasProjects form) }
{
    if word != "gen" {
        return None;
    }
    let projects = numeral_within(u64::from(MOST_PROJECTS), projects.as_bytes())?;
    let seed = numeral_within(u64::from(u32::MAX), seed.as_bytes())?;
    if projects == 0 {
        return None;
    }
    Some(Form::Gen {
        projects: projects as u32,
        seed: seed as u32,
    })
}
