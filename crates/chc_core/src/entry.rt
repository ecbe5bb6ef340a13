use step_rules::Step;

/// An entry of a book's journal.
pub struct Entry {
    /// Whose step it was: a number that the caller gave.
    pub worker: u32,
    pub step: Step,
}

impl Drop for Entry {
    fn drop(self) {
        let Entry { worker: _, step: _ } = self;
    }
}
