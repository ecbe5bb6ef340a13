use chc_tokens::Seen;
use cube_forms::Cube;
use model_project::Projected;

/// An Open: it asks one body atom's tuples of a cube, for an obligation whose cube holds the head of
/// an instance of a clause.
pub struct OpenPart {
    /// The number of the obligation that the new one serves.
    pub parent: u32,
    /// The number of the atom in the clause's body, from 0.
    pub atom: u32,
    /// The instance. Its clause is the step's clause, and the atom's tuple there is the new
    /// obligation's point.
    pub seen: Seen,
    /// Over the places of the atom's predicate: the area's cube, or the point's.
    pub cube: Cube,
    /// Literals that imply the guard, the parent's cube on the head and the frame below on the body,
    /// projected to the atom's variables at the instance.
    pub area: Projected,
}

impl Drop for OpenPart {
    fn drop(self) {
        let OpenPart {
            parent: _,
            atom: _,
            seen: _,
            cube: _,
            area: _,
        } = self;
    }
}
