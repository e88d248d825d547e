// Laws of this crate's definitions, stated for the contracts of the crates above. They take no
// time: a call brings the law to a proof.
ghost use Rattle.nm_check.specs.Laws as law;

/// A statement is one of a day exactly where its timeline is present on that day, and the
/// statements of a day are those of the timelines that are.
pub fn presence_is_by_timelines()
    ensures present { law.PresenceIsByTimelines }
    ensures statements { law.StatementsAreOfTimelines }
{}

/// The statements of a base are those whose timeline says so.
pub fn base_is_of_timelines()
    ensures { law.BaseIsOfTimelines }
{}

/// The replay of steps in order has a statement that does not fit exactly where some timeline has
/// an entry that does not, and the first is the least of those of the timelines, by key, part and
/// statement.
pub fn first_break_is_the_least()
    ensures { law.FirstBreakIsTheLeast }
{}

/// An edit of steps, each at a key of its own, edits the timelines of the statements that the steps
/// name, and leaves all others. So where every statement fitted before, only the timelines of these
/// have to be looked at.
pub fn edits_touch_what_is_named()
    ensures steps { law.EditedStepsAreSteps }
    ensures edited { law.TimelinesAreEdited }
    ensures stay { law.OtherTimelinesStay }
    ensures breaks { law.OnlyTouchedTimelinesBreak }
{}
