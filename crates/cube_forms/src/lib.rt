//! What a step of the book is made of: tuples of a predicate's arguments, cubes over their places,
//! lemmas that deny them, and tables whose versions share what they have in common.
#![tactic(auto)]

mod block;
mod cube;
mod denying;
mod held;
mod laws;
mod lemma;
mod placed;
mod short;
mod stop;
mod table;
mod tuple;

pub use cube::Cube;
pub use held::{Held, share_all};
pub use laws::{a_cube_follows_its_arguments, a_lemma_denies_its_cube, thin_cubes_have_room};
pub use lemma::{Lemma, negate};
pub use placed::lit_at;
pub use stop::CubeStop;
pub use table::Table;
pub use tuple::Tuple;
