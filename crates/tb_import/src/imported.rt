use tb_board::Draft;

/// How many tasks of an import were known and how many new, and what the new ones lost.
#[derive(Clone, Copy, Debug, PartialEq, Eq)]
pub struct ImportCounts {
    pub known: usize,
    pub new: usize,
    /// Members that the reader dropped.
    pub dropped: usize,
    /// Tasks that came as instances without a place to take.
    pub orphans: usize,
    /// Links to tasks that are neither on the board nor in the list.
    pub unlinked: usize,
}

/// What an accepted import made of a board that is awake.
#[derive(Drop)]
pub struct Imported {
    pub draft: Draft,
    pub counts: ImportCounts,
}
