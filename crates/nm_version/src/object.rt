// What is said of one subject on a day.
ghost use Rattle.nm_version.specs.Objects as spec;
ghost use Rattle.std.specs.Prelude.{◌≡◌, IfOk};

use crate::version::Version;
use nm_base::NoMemory;
use nm_day::Day;
use nm_ident::Ident;
use nm_statement::Set;
use std::alloc::Global;

impl Version {
    /// The statements of a day with this subject. Those of other subjects are not looked at.
    pub fn object(&self, alloc: Global, day: Day, subject: &Ident) -> Result<Set, NoMemory>
        ensures { IfOk result (λ set. set ≡ spec.object_at self.now.base self.now.live day subject.now) }
    {
        self.timelines().object(alloc, day, subject)
    }
}
