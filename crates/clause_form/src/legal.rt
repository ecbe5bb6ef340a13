ghost use Rattle.std.specs.Prelude.{◌≡◌, slice_get, nat_lt};
ghost use Rattle.std.specs.List.{list_all};
ghost use Rattle.clause_form.specs.System.{are_clauses, has_arguments, is_atom, is_clause, is_head};

use crate::atom::Atom;
use crate::clause::Clause;
use crate::short::has_short_multiples;
use base::{Items, MOST_ARGUMENTS, MOST_VARIABLES};
use term_tree::Sort;

fn have_arguments(preds: &[Items<Sort>], pred: u32, args: &[u32]) -> bool
    ensures { result ≡ has_arguments (slice_get preds.now pred) args.now }
{
    match preds.get(pred as usize) {
        None => false,
        Some(sorts) => args.len() == sorts.len() && args.len() <= MOST_ARGUMENTS,
    }
}

fn are_variables(args: &[u32], variables: usize) -> bool
    ensures { result ≡ list_all (λ v. nat_lt v variables) args.now }
{
    args.iter().all(|v| (*v as usize) < variables)
}

fn is_atom(preds: &[Items<Sort>], variables: usize, atom: &Atom) -> bool
    ensures { result ≡ is_atom preds.now variables atom.now }
{
    let args = atom.args.as_slice();
    have_arguments(preds, atom.pred, args) && are_variables(args, variables)
}

fn are_atoms(preds: &[Items<Sort>], variables: usize, atoms: &[Atom]) -> bool
    ensures { result ≡ list_all (is_atom preds.now variables) atoms.now }
{
    for atom in atoms {
        if !is_atom(preds, variables, atom) {
            return false;
        }
    }
    true
}

fn is_head(preds: &[Items<Sort>], variables: usize, head: &Option<Atom>) -> bool
    ensures { result ≡ is_head preds.now variables head.now }
{
    match head {
        None => true,
        Some(atom) => is_atom(preds, variables, atom),
    }
}

fn is_clause(preds: &[Items<Sort>], clause: &Clause) -> bool
    ensures { result ≡ is_clause preds.now clause.now }
{
    let variables = clause.sorts.len();
    clause.user as usize <= variables
        && variables <= MOST_VARIABLES
        && are_atoms(preds, variables, clause.atoms.as_slice())
        && is_head(preds, variables, &clause.head)
        && clause.guard.is_below(variables)
        && has_short_multiples(&clause.guard)
}

/// Whether the clauses are as a system over these predicates needs them.
pub(crate) fn are_clauses(preds: &[Items<Sort>], clauses: &[Clause]) -> bool
    ensures { result ≡ are_clauses preds.now clauses.now }
{
    for clause in clauses {
        if !is_clause(preds, clause) {
            return false;
        }
    }
    true
}
