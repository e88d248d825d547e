// Laws of this crate's definitions. They take no time: a call brings the law to a proof.
ghost use Rattle.nm_reader.specs.Laws as law;

/// An input states a model exactly where it has no fault, and then it states one model alone.
pub fn documents_have_no_fault()
    ensures faultless { law.DocumentsHaveNoFault }
    ensures one { law.InputsStateOneModel }
    ensures told { law.ModelsAreTold }
    ensures read { law.DocumentsAreRead }
    ensures kept { law.StatedModelsAreKept }
{}

/// Up to 67,108,864 bytes, an input with a fault is judged on the pieces that it is cut into, and on
/// what stands behind them.
pub fn faults_are_judged_on_the_cutting()
    ensures { law.FaultsAreJudgedOnTheCutting }
{}

/// The same of pieces, whatever bytes they were cut from.
pub fn pieces_have_no_fault()
    ensures faultless { law.FaultlessPiecesAreDocuments }
    ensures one { law.PiecesStateOneModel }
{}
