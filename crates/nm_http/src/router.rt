// Which route a request takes.
ghost use Rattle.nm_http.specs.HttpError.{wants_memory};
ghost use Rattle.nm_http.specs.Paths as paths;
ghost use Rattle.nm_http.specs.Routing as spec;
ghost use Rattle.nm_http.specs.Segments as segments;
ghost use Rattle.nm_terms.specs.Due.{IsDue};
ghost use Rattle.std.specs.Option.{option_map};
ghost use Rattle.std.specs.Prelude.{◌≡◌, IfOk, MatchOption, OnOk, false, true};
ghost use Rattle.std.specs.Str.{is_utf8};

use crate::call::{Call, Route};
use crate::error::HttpError;
use crate::message::Request;
use crate::paths::PathForm;
use crate::segments::{before, behind};
use matchit::Router;
use nm_day::Day;
use nm_ident::{Ident, IdentError, NoMemory, Text, model_id};
use std::alloc::Global;

/// The routes of the service, by which the path of a request is found.
#[derive(Drop)]
pub struct Routes {
    router: Router<PathForm>,
    ghost table: { router ≡ paths.all_paths },
}

impl Routes {
    /// The routes of the service.
    pub fn new(alloc: Global) -> Result<Routes, NoMemory> {
        let mut router = Router::new(alloc);
        add(&mut router, PathForm::Assembly)?;
        add(&mut router, PathForm::Object)?;
        add(&mut router, PathForm::Timeline)?;
        add(&mut router, PathForm::Projects)?;
        add(&mut router, PathForm::Log)?;
        add(&mut router, PathForm::Filing)?;
        add(&mut router, PathForm::Project)?;
        add(&mut router, PathForm::ProjectDay)?;
        Ok(Routes { router })
    }

    /// What the request asks. Statuses are looked for in this order: 404 where no path of the service
    /// fits its path, 405 where that path has no such method, 411 where a document is to come and the
    /// head gives no length, and 404 where a day, an identifier or a project in the path is none.
    pub fn route(&self, alloc: Global, request: &Request) -> Result<Route, HttpError>
        ensures { IsDue wants_memory result (spec.route_of request.now) }
    {
        let call = self.call(request)?;
        route_with(alloc, call, parameters(request.path.as_slice()))
    }

    /// What the request asks, without the parameters of its path.
    fn call(&self, request: &Request) -> Result<Call, HttpError>
        ensures { result ≡ spec.call_of request.now }
    {
        let Some(form) = self.form(request.path.as_slice()) else {
            return Err(HttpError::Status(404));
        };
        let Some(call) = form.call(request.method.as_str()) else {
            return Err(HttpError::Status(405));
        };
        if call.takes_document() && request.length.is_none() {
            return Err(HttpError::Status(411));
        }
        Ok(call)
    }

    /// The methods of the request's path, separated by `, `, as an `Allow` field has them (RFC 9110,
    /// section 10.2.1). `None` where no path of the service fits.
    pub fn allow(&self, alloc: Global, request: &Request) -> Result<Option<Text>, NoMemory>
        ensures { IfOk result (λ allow. allow ≡ spec.allow_of request.now) }
    {
        match self.form(request.path.as_slice()) {
            Some(form) => Ok(Some(Text::of_slice(alloc, form.allow())?)),
            None => Ok(None),
        }
    }

    /// The path of the service that fits.
    #[tactic(auto, unfolding(crate::specs::Paths::form_of))]
    fn form(&self, path: &[u8]) -> Option<PathForm>
        ensures { result ≡ paths.form_of path.now }
    {
        match text_of(path) {
            Some(text) => self.form_at(text),
            None => None,
        }
    }

    /// The path of the service that fits a text.
    fn form_at(&self, text: &str) -> Option<PathForm>
        ensures { result ≡ paths.form_at text.now }
    {
        match self.router.at(text) {
            Ok(found) => Some(*found.value),
            Err(_) => None,
        }
    }
}

/// The bytes, where they are UTF-8.
fn text_of(bytes: &[u8]) -> Option<&str>
    ensures { MatchOption result (is_utf8 bytes.now ≡ false) (λ text. (is_utf8 bytes.now ≡ true) × (text.now ≡ bytes.now)) }
{
    match str::from_utf8(bytes) {
        Ok(text) => Some(text),
        Err(_) => None,
    }
}

/// What stands behind the first word of a path and its slash.
fn parameters(path: &[u8]) -> &[u8]
    ensures { result.now ≡ segments.parameters path.now }
{
    behind(b'/', behind(b'/', path))
}

/// Adds a path.
#[tactic(auto, unfolding(crate::specs::Paths::with_path))]
fn add(router: &mut Router<PathForm>, form: PathForm) -> Result<(), NoMemory>
    ensures { OnOk result (router.new ≡ paths.with_path router.old form) }
{
    match router.insert(form.text(), form) {
        Ok(()) => Ok(()),
        Err(_) => Err(NoMemory),
    }
}

/// The route of a call with its parameters, which stand between slashes. 404 where one is no day, no
/// identifier or no project.
#[tactic(auto, unfolding(crate::specs::Routing::route_with))]
fn route_with(alloc: Global, call: Call, text: &[u8]) -> Result<Route, HttpError>
    ensures { IsDue wants_memory result (spec.found (spec.route_with call text.now)) }
{
    match call {
        Call::Projects => Ok(Route::Projects),
        Call::Log => Ok(Route::Log),
        Call::Assemble => Ok(Route::Assemble { day: day_at(text)? }),
        Call::File => Ok(Route::File { day: day_at(text)? }),
        Call::Object => {
            let day = day_at(text)?;
            let ident = ident_at(alloc, behind(b'/', text))?;
            Ok(Route::Object { day, ident })
        }
        Call::Timeline => {
            let ident = ident_at(alloc, text)?;
            Ok(Route::Timeline { ident })
        }
        Call::Revise => {
            let project = project_at(text)?;
            Ok(Route::Revise { project })
        }
        Call::Redate => {
            let project = project_at(text)?;
            let rest = behind(b'/', behind(b'/', text));
            let day = day_at(rest)?;
            Ok(Route::Redate { project, day })
        }
        Call::Withdraw => {
            let project = project_at(text)?;
            Ok(Route::Withdraw { project })
        }
    }
}

/// The day that the first segment of the text is.
fn day_at(text: &[u8]) -> Result<Day, HttpError>
    ensures { result ≡ spec.found (spec.day_at text.now) }
{
    match Day::parse(before(b'/', text)) {
        Ok(day) => Ok(day),
        Err(_) => Err(HttpError::Status(404)),
    }
}

/// The project that the first segment of the text is.
fn project_at(text: &[u8]) -> Result<u128, HttpError>
    ensures { result ≡ spec.found (spec.project_at text.now) }
{
    match model_id(before(b'/', text)) {
        Some(project) => Ok(project),
        None => Err(HttpError::Status(404)),
    }
}

/// The identifier that the first segment of the text is.
fn ident_at(alloc: Global, text: &[u8]) -> Result<Ident, HttpError>
    ensures { IsDue wants_memory result (spec.found (spec.ident_at text.now)) }
{
    match Ident::of_id(alloc, before(b'/', text)) {
        Ok(ident) => Ok(ident),
        Err(IdentError::Bad) => Err(HttpError::Status(404)),
        Err(IdentError::NoMemory) => Err(HttpError::NoMemory),
    }
}
