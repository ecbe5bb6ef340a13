ghost use Rattle.std.specs.Prelude.{◌≡◌, ◌++◌, ◌<◌, ◌&&◌, ◌||◌, length, IfOk, OnOk, MatchOption, true, false};
ghost use Rattle.std.specs.List.{list_all, list_any};
ghost use Rattle.lin_atoms.specs.Denial.{lit_fits};
ghost use Rattle.cube_forms.specs.Cubes.{cube_at, has_room};
ghost use Rattle.book_rules.specs.Areas.{are_among, cover, is_among, is_area, knows, same_variables, stands_in};
ghost use Rattle.book_rules.specs.Queries.{args_of};
ghost use Rattle.book_rules.specs.Same.{same_tuple};
ghost use Rattle.cube_rules.specs.Views.{framed_at, lemmas_of};
ghost use Rattle.cube_rules.specs.machinery.Literals.{are_placed, atom_lits, frame_lits, lemma_lits, roomy_denials};

use crate::framed::is_free;
use crate::literals::{any_among, are_among, cover, have_room, is_among, push_roomy, stands_in};
use crate::same::same_tuple;
use base::{Items, Memory};
use clause_form::{Atom, Clause};
use cube_forms::{Cube, Lemma};
use lemma_frames::Frames;
use lin_atoms::{Form, Lit, WideStop};
use model_project::Projected;
use std::alloc::Global;

/// Whether each of these variables is one of those.
fn are_variables(those: &[u32], these: &[u32]) -> bool
    ensures { result ≡ are_among those.now these.now }
{
    for variable in these {
        if !those.contains(variable) {
            return false;
        }
    }
    true
}

/// Whether they are the same variables, however often and in whatever order.
fn same_variables(these: &[u32], those: &[u32]) -> bool
    ensures { result ≡ same_variables these.now those.now }
{
    are_variables(those, these) && are_variables(these, those)
}

/// Adds the literals of a lemma's form at the atom's arguments, if the lemma is on the atom's
/// predicate and of this level or more.
fn push_lemma(
    alloc: Global,
    lits: &mut Vec<Lit>,
    frames: &Frames,
    id: u32,
    k: u32,
    atom: &Atom,
) -> Result<(), Memory>
    requires { id < length frames.now.lemmas }
    ensures { OnOk result (lits.new.items ≡ lits.old.items ++ lemma_lits k atom.now (framed_at frames.now.lemmas id)) }
{
    if frames.level_of(id) < k || frames.pred_of(id) != atom.pred {
        return Ok(());
    }
    let cube = frames.lemma(id).cube().lits();
    push_roomy(alloc, lits, cube, atom.args.as_slice())
}

/// Adds those of all such lemmas.
fn push_lemmas(
    alloc: Global,
    lits: &mut Vec<Lit>,
    frames: &Frames,
    k: u32,
    atom: &Atom,
) -> Result<(), Memory>
    ensures { OnOk result (lits.new.items ≡ lits.old.items ++ atom_lits (lemmas_of frames.now.lemmas) k atom.now) }
{
    if is_free(frames, k, atom.pred) {
        return Ok(());
    }
    for id in 0..frames.count() {
        push_lemma(alloc, lits, frames, id, k, atom)?;
    }
    Ok(())
}

/// The literals of the lemmas of level k or more at the arguments of each body atom, atom by atom, each
/// form made once.
fn frame_lits(alloc: Global, frames: &Frames, k: u32, atoms: &[Atom]) -> Result<Vec<Lit>, Memory>
    ensures { IfOk result (λ lits. lits.items ≡ frame_lits (lemmas_of frames.now.lemmas) k atoms.now) }
{
    let mut lits = Vec::new(alloc);
    for atom in atoms {
        push_lemmas(alloc, &mut lits, frames, k, atom)?;
    }
    Ok(lits)
}

/// The cube's literals at the head's arguments; none where a number has no room.
fn at_head(alloc: Global, cube: &Cube, head: &Option<Atom>) -> Result<Option<Items<Lit>>, Memory>
    ensures { IfOk result (λ found. MatchOption found (has_room (args_of head.now) cube.now ≡ false) (λ lits. lits ≡ cube_at (args_of head.now) cube.now)) }
{
    let args = match head {
        Some(atom) => atom.args.as_slice(),
        None => &[],
    };
    match cube.at(alloc, args) {
        Ok(lits) => Ok(Some(lits)),
        Err(WideStop::Wide) => Ok(None),
        Err(WideStop::Memory) => Err(Memory),
    }
}

/// Whether each literal of the area stands in the guard, among the head's, or among the frame's.
fn all_stand(lits: &[Lit], guard: &Form, head: &[Lit], frame: &[Lit]) -> bool
    ensures { result ≡ list_all (λ lit. stands_in lit guard.now || is_among head.now lit || is_among frame.now lit) lits.now }
{
    for lit in lits {
        if !stands_in(lit, guard) && !is_among(head, lit) && !is_among(frame, lit) {
            return false;
        }
    }
    true
}

/// Tells that the area's literals have room.
fn area_has_room(area: &Projected)
    ensures { list_all lit_fits area.now.lits ≡ true }
{
    have_room(area.lits());
}

/// Whether the area has the head's literals, and each of its own stands in the guard, among those,
/// or among the frame's.
fn have_places(area: &Projected, guard: &Form, head: &[Lit], frame: &[Lit]) -> bool
    ensures { result ≡ (list_all (is_among area.now.lits) head.now && list_all (λ lit. stands_in lit guard.now || is_among head.now lit || is_among frame.now lit) area.now.lits) }
{
    are_among(area.lits(), head) && all_stand(area.lits(), guard, head, frame)
}

/// Whether the area has the parent's literals at the head, and each of its literals stands in the
/// guard, among those, or in a form of the frame.
fn are_placed(
    alloc: Global,
    area: &Projected,
    clause: &Clause,
    cube: &Cube,
    frames: &Frames,
    k: u32,
) -> Result<bool, Memory>
    ensures { IfOk result (λ b. b ≡ are_placed clause.now cube.now (lemmas_of frames.now.lemmas) k area.now) }
{
    area_has_room(area);
    match at_head(alloc, cube, &clause.head)? {
        None => Ok(false),
        Some(head) => {
            let atoms = clause.atoms.as_slice();
            let frame = frame_lits(alloc, frames, k, atoms)?;
            let heads = head.as_slice();
            let forms = frame.as_slice();
            Ok(have_places(area, &clause.guard, heads, forms))
        }
    }
}

/// Whether the area's kept variables are the atom's.
fn is_on(area: &Projected, atom: &Atom) -> bool
    ensures { result ≡ same_variables area.now.keep atom.now.args }
{
    same_variables(area.keep(), atom.args.as_slice())
}

/// Whether the area's model is the point.
fn is_at(area: &Projected, point: &[i64]) -> bool
    ensures { result ≡ same_tuple area.now.model point.now }
{
    same_tuple(area.model(), point)
}

/// Whether the area covers the form.
fn covers(area: &Projected, form: &Form) -> bool
    ensures { result ≡ cover area.now.lits form.now }
{
    cover(area.lits(), form)
}

/// Whether the area is of the atom, the clause at the instance's point, and a parent with this cube
/// whose children are at level k.
pub fn is_area(
    alloc: Global,
    area: &Projected,
    point: &[i64],
    clause: &Clause,
    atom: &Atom,
    cube: &Cube,
    frames: &Frames,
    k: u32,
) -> Result<bool, Memory>
    ensures { IfOk result (λ b. b ≡ is_area clause.now point.now atom.now cube.now (lemmas_of frames.now.lemmas) k area.now) }
{
    if !is_on(area, atom) {
        return Ok(false);
    }
    if !is_at(area, point) {
        return Ok(false);
    }
    if !covers(area, &clause.guard) {
        return Ok(false);
    }
    let placed = are_placed(alloc, area, clause, cube, frames, k)?;
    Ok(placed)
}

/// The literals of a lemma's form at the atom's arguments, without those that have no room.
fn lits_on(alloc: Global, atom: &Atom, lemma: &Lemma) -> Result<Vec<Lit>, Memory>
    ensures { IfOk result (λ lits. lits.items ≡ roomy_denials atom.now.args lemma.now) }
{
    let mut lits = Vec::new(alloc);
    push_roomy(alloc, &mut lits, lemma.cube().lits(), atom.args.as_slice())?;
    Ok(lits)
}

/// Whether one of these is one of the area's.
fn has_any(area: &Projected, those: &[Lit]) -> bool
    ensures { result ≡ list_any (is_among area.now.lits) those.now }
{
    any_among(area.lits(), those)
}

/// Whether the area knows the lemma on the atom: it covers the lemma's form at the atom's arguments.
pub fn knows(alloc: Global, area: &Projected, atom: &Atom, lemma: &Lemma) -> Result<bool, Memory>
    ensures { IfOk result (λ b. b ≡ knows area.now atom.now lemma.now) }
{
    let lits = lits_on(alloc, atom, lemma)?;
    area_has_room(area);
    Ok(has_any(area, lits.as_slice()))
}
