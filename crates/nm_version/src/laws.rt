// Laws of this crate's definitions. They take no time: a call brings the law to a proof.
ghost use Rattle.nm_version.specs.Laws as law;
ghost use Rattle.nm_version.specs.Edits.{CommandsEditSteps};
ghost use Rattle.nm_version.specs.Lesser.{FirstBreakIsTheLesser, WhatIsReachedFits};
ghost use Rattle.nm_version.specs.Withdrawal as withdrawal;

/// A project that is filed has a filing number of its own, and so it stands behind all others.
pub fn filed_projects_come_last()
    ensures { law.FiledProjectsComeLast }
{}

/// Live projects that differ in their filing numbers alone, and stand in the same order, give the
/// same model of a day, the same objects, the same timelines and the same rows.
pub fn filing_numbers_stay_inside()
    ensures { law.FilingNumbersStayInside }
{}

/// What a version keeps is determined by the bytes of its base and by its log.
pub fn logs_determine_what_is_kept()
    ensures { law.LogsDetermineWhatIsKept }
{}

/// A withdrawal that is accepted takes its project out of the live projects and leaves the base. So
/// all is answered as if the project had not been filed, but the log and the numbers, where each
/// command since that does not name it is accepted without it too.
pub fn withdrawals_take_away()
    ensures withdrawn { withdrawal.WithdrawalsTakeAway }
    ensures unfiled { withdrawal.WithdrawnAsIfNotFiled }
{}

/// The first break of the live projects is the lesser, by the keys of their steps, of the first
/// dependency that is not met and the first statement that does not fit; at one key it is the
/// dependency.
pub fn first_break_is_the_lesser()
    ensures { FirstBreakIsTheLesser }
{}

/// Of what accepted commands have led to, each dependency is met, and each statement of each step
/// fits what stands before it.
pub fn what_is_reached_fits()
    ensures { WhatIsReachedFits }
{}

/// A command that no rule before the replay refuses edits the steps of the live projects: a filing
/// adds one, a withdrawal takes one away, and a revision or another day does both.
pub fn commands_edit_steps()
    ensures { CommandsEditSteps }
{}
