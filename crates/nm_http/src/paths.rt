// The paths of the service, and the methods of each.
ghost use Rattle.nm_http.specs.Table as spec;
ghost use Rattle.std.specs.Prelude.{◌≡◌, [], ◌∷◌};

use crate::call::Call;

/// A path of the service.
#[derive(Clone, Copy, Debug, PartialEq, Eq)]
pub enum PathForm {
    Assembly,
    Object,
    Timeline,
    Projects,
    Log,
    Filing,
    Project,
    ProjectDay,
}

impl PathForm {
    /// The path, with its parameters in braces.
    pub fn text(self) -> &'static str
        ensures { result.now ≡ spec.path_of self }
    {
        match self {
            PathForm::Assembly => "/assembly/{day}",
            PathForm::Object => "/object/{day}/{id}",
            PathForm::Timeline => "/timeline/{id}",
            PathForm::Projects => "/projects",
            PathForm::Log => "/log",
            PathForm::Filing => "/projects/{day}",
            PathForm::Project => "/project/{project}",
            PathForm::ProjectDay => "/project/{project}/day/{day}",
        }
    }

    /// The methods of the path, separated by `, `.
    pub fn allow(self) -> &'static [u8]
        ensures { result.now ≡ spec.allow_of self }
    {
        match self {
            PathForm::Assembly
            | PathForm::Object
            | PathForm::Timeline
            | PathForm::Projects
            | PathForm::Log => b"GET",
            PathForm::Filing => b"POST",
            PathForm::Project => b"PUT, DELETE",
            PathForm::ProjectDay => b"PUT",
        }
    }

    /// What a method asks of the path. `None` where the path has no such method.
    pub fn call(self, method: &str) -> Option<Call>
        ensures { result ≡ spec.call_of self method.now }
    {
        match self {
            PathForm::Assembly => one(method, "GET", Call::Assemble),
            PathForm::Object => one(method, "GET", Call::Object),
            PathForm::Timeline => one(method, "GET", Call::Timeline),
            PathForm::Projects => one(method, "GET", Call::Projects),
            PathForm::Log => one(method, "GET", Call::Log),
            PathForm::Filing => one(method, "POST", Call::File),
            PathForm::Project => {
                if method == "PUT" {
                    Some(Call::Revise)
                } else {
                    one(method, "DELETE", Call::Withdraw)
                }
            }
            PathForm::ProjectDay => one(method, "PUT", Call::Redate),
        }
    }
}

/// The call, where the method is the one that it has.
fn one(method: &str, own: &str, call: Call) -> Option<Call>
    ensures { result ≡ spec.call_among ((own.now, call) ∷ []) method.now }
{
    if method == own { Some(call) } else { None }
}
