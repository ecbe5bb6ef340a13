use derivations::Facts;
use lemma_frames::Frames;
use obligation_tree::Tree;

/// What a step makes of a book beside its journal: new versions, made while the book stays as it is.
/// What a step leaves as it was isn't made.
#[derive(Drop)]
pub(crate) struct Made {
    pub(crate) level: u32,
    pub(crate) spent: u32,
    pub(crate) frames: Option<Frames>,
    pub(crate) facts: Option<Facts>,
    pub(crate) tree: Tree,
}
