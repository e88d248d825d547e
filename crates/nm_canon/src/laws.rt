// Laws that join the canonical document with the documents that are read. They take no time: a call
// brings the law to a proof.
ghost use Rattle.nm_canon.specs.Laws as law;

/// What is written of a sound model within the limits states this model again, and two sound models
/// have the same canonical bytes exactly where they are the same model.
pub fn canonical_documents_are_read_back()
    ensures again { law.WhatIsWrittenReadsBack }
    ensures apart { law.BytesTellModelsApart }
{}
