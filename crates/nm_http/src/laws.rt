// Laws of heads.
ghost use Rattle.nm_http.specs.Laws.{HeadsAreThoseOfTheGrammar};

/// A head is found in bytes exactly where they are one of the grammar of `httparse` and nothing more.
pub fn heads_are_found()
    ensures { HeadsAreThoseOfTheGrammar }
{}
