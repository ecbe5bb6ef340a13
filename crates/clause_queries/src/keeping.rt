//! What every cube keeps.

ghost use Rattle.std.specs.Prelude.{◌≡◌, true};
ghost use Rattle.std.specs.List.{list_all};
ghost use Rattle.lin_atoms.specs.Denial.{linear_of};
ghost use Rattle.lin_atoms.specs.Linear.{is_linear};
ghost use Rattle.chc_tokens.specs.Queries.{goal_cube};
ghost use Rattle.clause_queries.specs.Kept.{are_linear, is_kept, lemma_is_kept};

use chc_tokens::Goal;
use cube_forms::Cube;
use lemma_frames::Frames;
use lin_atoms::{Lin, Lit};

/// Tells that a linear form that is kept is one.
fn lin_is_linear(lin: &Lin)
    ensures { is_linear lin.now ≡ true }
{
    let _terms = lin.terms();
}

/// Tells it of a literal.
fn lit_is_linear(lit: &Lit)
    ensures { is_linear (linear_of lit.now) ≡ true }
{
    match lit {
        Lit::Le(lin) => lin_is_linear(lin),
        Lit::Eq(lin) => lin_is_linear(lin),
        Lit::Div(_, lin) => lin_is_linear(lin),
        Lit::NDiv(_, lin) => lin_is_linear(lin),
    }
}

/// Tells it of literals.
fn are_linear(lits: &[Lit])
    ensures { are_linear lits.now ≡ true }
{
    for lit in lits {
        lit_is_linear(lit);
    }
}

/// Tells of a cube that its literals are linear forms, and that its numbers are short.
pub fn is_kept(cube: &Cube)
    ensures { is_kept cube.now ≡ true }
{
    are_linear(cube.lits());
}

/// Tells it of all lemmas.
pub fn frames_are_kept(frames: &Frames)
    ensures { list_all lemma_is_kept frames.now.lemmas ≡ true }
{
    for id in 0..frames.count() {
        is_kept(frames.lemma(id).cube());
    }
}

/// Tells it of a goal's cube.
pub(crate) fn goal_is_kept(goal: &Goal)
    ensures { is_kept (goal_cube goal.now) ≡ true }
{
    match goal {
        Goal::Query => {}
        Goal::Holds(lemma) => is_kept(lemma.cube()),
    }
}
