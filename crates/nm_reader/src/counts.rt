// What is counted as a document states it, repeats too.

/// How much has been stated of what is limited in number.
#[derive(Clone, Copy, Drop)]
pub struct Counts {
    /// Statements of a full model.
    pub statements: usize,
    /// Statements of a difference model's sections together.
    pub changes: usize,
    pub profiles: usize,
    pub dependencies: usize,
    pub superseded: usize,
}
