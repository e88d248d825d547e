// The first dependency that a change of one project leaves unmet.
ghost use Rattle.nm_stage.specs.Dependencies.{missing_of};
ghost use Rattle.nm_stage.specs.Live.{IsLive, filed_as, without_filing};
ghost use Rattle.nm_stage.specs.Project.{has_id, key_of};
ghost use Rattle.nm_stage.specs.Unmet as spec;
ghost use Rattle.nm_day.specs.Key.{key_cmp};
ghost use Rattle.std.specs.List.{list_any};
ghost use Rattle.std.specs.Ordering.{is_lt};
ghost use Rattle.std.specs.Prelude.{◌≡◌, ◌&&◌, ◌==◌, not, None, Some};

use crate::listed::Dependent;
use crate::live::Live;
use crate::project::Project;
use nm_day::Key;
use nm_ident::Ids;

impl Live {
    /// The first step, in the order of keys, with a dependency that is not met, and the least such
    /// dependency, where this list was made from `before` by a change of the project of one filing
    /// number, and nothing was missing there.
    ///
    /// It is one of the project's own dependencies, or one that its old lineage met at another step.
    /// So the time is that of some binary searches for each of these ids; no other project is looked
    /// at.
    pub fn missing_since(&self, known: &Ids, before: &Live, filing: u32) -> Option<(Key, u128)>
        requires complete { missing_of known.now before.now ≡ None }
        requires same { without_filing filing before.now ≡ without_filing filing self.now }
        ensures { result ≡ missing_of known.now self.now }
    {
        self.projects_are_live();
        let own = self.missing_of_own(known, filing);
        let others = self.missing_of_others(known, before, filing);
        earlier(own, others)
    }

    /// Of the project of this filing number.
    fn missing_of_own(&self, known: &Ids, filing: u32) -> Option<(Key, u128)>
        ensures { spec.IsFirst self.now (spec.misses known.now self.now) (λ project id. spec.misses known.now self.now project id && (project.filing == filing)) result }
    {
        let project = self.filed_as(filing)?;
        self.missing_of_project(known, project)
    }

    fn missing_of_project(&self, known: &Ids, project: &Project) -> Option<(Key, u128)>
        requires { filed_as project.now.filing self.now ≡ Some project.now }
        ensures { spec.IsFirst self.now (spec.misses known.now self.now) (λ other id. spec.misses known.now self.now other id && (other.filing == project.now.filing)) result }
    {
        self.projects_are_live();
        let key = project.key();
        let mut first = None;
        for id in project.dependencies.as_slice() {
            if !self.is_met(known, &key, *id) {
                first = earlier(first, Some((key, *id)));
            }
        }
        first
    }

    /// Of the other projects: what the old project of this filing number met is all that they can
    /// miss now.
    fn missing_of_others(&self, known: &Ids, before: &Live, filing: u32) -> Option<(Key, u128)>
        requires complete { missing_of known.now before.now ≡ None }
        requires same { without_filing filing before.now ≡ without_filing filing self.now }
        ensures { spec.IsFirst self.now (spec.misses known.now self.now) (λ project id. spec.misses known.now self.now project id && not (project.filing == filing)) result }
    {
        before.projects_are_live();
        let old = before.filed_as(filing)?;
        self.missing_of_lineage(known, old.lineage.as_slice(), &old.key())
    }

    /// Of these ids, by steps that are not before the key.
    fn missing_of_lineage(&self, known: &Ids, ids: &[u128], key: &Key) -> Option<(Key, u128)>
        ensures { spec.IsFirst self.now (spec.misses known.now self.now) (λ project id. spec.misses known.now self.now project id && (has_id ids.now id && not (is_lt (key_cmp (key_of project) key.now)))) result }
    {
        let mut first = None;
        for id in ids {
            first = earlier(first, self.missing_at(known, &Dependent::of_id(*id, key)));
        }
        first
    }

    /// Of one id, by steps that are not before the key: where the first of them finds it met, so do
    /// those that follow.
    fn missing_at(&self, known: &Ids, from: &Dependent) -> Option<(Key, u128)>
        ensures { spec.IsFirst self.now (spec.misses known.now self.now) (λ project id. spec.misses known.now self.now project id && ((id == from.now.dependency) && not (is_lt (key_cmp (key_of project) from.now.key)))) result }
    {
        let key = self.first_dependent(from)?;
        if self.is_met(known, &key, from.dependency) {
            None
        } else {
            Some((key, from.dependency))
        }
    }

    /// Whether a dependency of a step at the key is met: it is known, or stands in the lineage of a
    /// project of an earlier step.
    fn is_met(&self, known: &Ids, key: &Key, id: u128) -> bool
        ensures { result ≡ spec.is_met known.now self.now key.now id }
    {
        has(known, id) || self.is_held_before(key, id)
    }

    fn is_held_before(&self, key: &Key, id: u128) -> bool
        ensures { result ≡ list_any (spec.meets key.now id) self.now }
    {
        match self.holder_of(id) {
            Some(project) => project.key().cmp(key).is_lt(),
            None => false,
        }
    }
}

fn has(ids: &Ids, id: u128) -> bool
    ensures { result ≡ has_id ids.now id }
{
    ids.contains(id)
}

/// The first of two.
fn earlier(one: Option<(Key, u128)>, other: Option<(Key, u128)>) -> Option<(Key, u128)>
    ensures { result ≡ spec.earlier one other }
{
    let Some(first) = one else {
        return other;
    };
    let Some(second) = other else {
        return Some(first);
    };
    if first > second {
        Some(second)
    } else {
        Some(first)
    }
}
