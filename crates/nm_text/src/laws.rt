// Laws of this crate's definitions, stated for the contracts of the crates above. They take no
// time: a call brings the law to a proof.
ghost use Rattle.nm_text.specs.Laws as law;

/// A text of XML is told byte by byte, and so is whether bytes can go on to be one.
pub fn texts_are_told_by_bytes()
    ensures { law.TextsAreToldByBytes }
{}

/// References stand for characters, and whether bytes can go on to be the name of one is told.
pub fn references_name_characters()
    ensures { law.ReferencesNameCharacters }
{}

/// What [`crate::escape_text`] and [`crate::escape_attribute`] write is read back as it was, and
/// [`crate::normal_lines`] changes nothing in it.
pub fn spellings_read_back()
    ensures { law.SpellingsReadBack }
{}

/// Texts of XML are spelt as such texts and read as such texts.
pub fn texts_stay_texts()
    ensures { law.TextsStayTexts }
{}
