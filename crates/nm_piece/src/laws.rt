// Laws of this crate's definitions, stated for the contracts of the crates above. They take no
// time: a call brings the law to a proof.
ghost use Rattle.nm_piece.specs.Laws as law;

/// At most one piece is spelt at the front of some bytes, with one length.
pub fn one_piece_is_spelt()
    ensures { law.OnePieceIsSpelt }
{}

/// What is read at the front of some bytes is the piece that is spelt there; the reading is
/// unfinished exactly where none is spelt and one begins so, and refused exactly elsewhere.
pub fn reading_is_exact()
    ensures { law.ReadingIsExact }
{}

/// An input has exactly one cutting into pieces and a rest.
pub fn inputs_have_one_cutting()
    ensures { law.OneCutting }
{}
