ghost use Rattle.std.specs.Prelude.{◌≡◌, slice_get};
ghost use Rattle.chc_tokens.specs.Instances.{token_args};
ghost use Rattle.chc_tokens.specs.Queries.{has_places, has_used};

use crate::used::Used;
use clause_form::Atom;
use cube_forms::Lemma;

/// The variables of the head; none where it is false.
pub(crate) fn head_args(head: &Option<Atom>) -> &[u32]
    ensures { result.now ≡ token_args head.now }
{
    match head {
        Some(atom) => atom.args.as_slice(),
        None => &[],
    }
}

/// The variables of an atom; none where it isn't there.
pub(crate) fn args_at(atoms: &[Atom], number: u32) -> &[u32]
    ensures { result.now ≡ token_args (slice_get atoms.now number) }
{
    match atoms.get(number as usize) {
        Some(atom) => atom.args.as_slice(),
        None => &[],
    }
}

/// Whether the head isn't false and has each place of the lemma.
pub(crate) fn has_places(head: &Option<Atom>, lemma: &Lemma) -> bool
    ensures { result ≡ has_places head.now lemma.now }
{
    match head {
        Some(atom) => lemma.cube().is_below(atom.args.len()),
        None => false,
    }
}

fn has_atom(atoms: &[Atom], used: &Used) -> bool
    ensures { result ≡ has_places (slice_get atoms.now used.now.atom) used.now.lemma }
{
    match atoms.get(used.atom as usize) {
        Some(atom) => used.lemma.cube().is_below(atom.args.len()),
        None => false,
    }
}

/// Whether the atom of each used lemma is there, with each place of the lemma.
pub(crate) fn has_used(atoms: &[Atom], used: &[Used]) -> bool
    ensures { result ≡ has_used atoms.now used.now }
{
    for one in used {
        if !has_atom(atoms, one) {
            return false;
        }
    }
    true
}
