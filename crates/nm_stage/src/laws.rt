// Laws of this crate's definitions, stated for the contracts of the crates above. They take no
// time: a call brings the law to a proof.
ghost use Rattle.nm_stage.specs.Laws as law;

/// The projects of a live list in the order of their keys are all of them, and the keys strictly
/// rise.
pub fn live_projects_stand_in_order()
    ensures { law.LiveProjectsStandInOrder }
{}

/// The empty list is live, and lists stay live as projects come and go.
pub fn lists_stay_live()
    ensures { law.ListsStayLive }
{}

/// A change of one project leaves the others as they are.
pub fn changes_leave_others()
    ensures { law.ChangesLeaveOthers }
{}

/// When a project can join a live list: with one id that no lineage has, with the lineage that it
/// has there, with one new id more, or generally with ids that no other project has.
pub fn projects_can_join()
    ensures own { law.JoinsWithOwnIds }
    ensures filed { law.JoinsWithNewId }
    ensures again { law.JoinsAgain }
    ensures revised { law.JoinsRevised }
{}
