// Laws of this crate's definitions. They take no time: a call brings the law to a proof.
ghost use Rattle.nm_session.specs.Laws as law;

/// The log of a version is a session stream whose base and commands are accepted, one after
/// another, and at its end the same is kept again. So [`opening`](crate::opening) gives an equal
/// version of it, unless its source fails or memory is wanting.
pub fn logs_open_again()
    ensures again { law.LogsOpenAgain }
    ensures same { law.LogsOpenTheSame }
{}
