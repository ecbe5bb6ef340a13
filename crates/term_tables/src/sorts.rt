//! The sort of a node over the sorts of its parts.

ghost use Rattle.std.specs.Prelude.{◌≡◌, ◌∷◌, [], map, slice_get, nat_le, length, ◌&&◌, None, if◌then◌else◌};
ghost use Rattle.std.specs.List.{list_all};
ghost use Rattle.base.specs.Limits.{most_distinct};
ghost use Rattle.term_tree.specs.Sorts.{all_of, are_alike, choice_sort, has_sort, have_sorts, is_sorted, node_sort, operation_sort, predicate_sort, sort_if};
ghost use Rattle.term_tree.specs.declared.sort.Sort.TheVariants.{Bool as Truth};
ghost use Rattle.term_tables.specs.machinery.Table.{sort_in};

use base::MOST_DISTINCT;
use term_tree::{Node, OpKind, Pred, Sort, TermId};

/// What is known of the term of that number; nothing of one that isn't there.
pub(crate) fn sort_in(known: &[Option<Sort>], id: TermId) -> Option<Sort>
    ensures { result ≡ sort_in known.now id.0 }
{
    let place = id.0 as usize;
    if place < known.len() {
        known[place]
    } else {
        None
    }
}

fn has_sort(sort: Sort, given: Option<Sort>) -> bool
    ensures { result ≡ has_sort sort given }
{
    match (sort, given) {
        (Sort::Int, Some(Sort::Int)) => true,
        (Sort::Bool, Some(Sort::Bool)) => true,
        _ => false,
    }
}

/// Whether all these terms have the sort.
fn all_have(sort: Sort, known: &[Option<Sort>], ids: &[TermId]) -> bool
    ensures { result ≡ list_all (has_sort sort) (map (λ id. sort_in known.now id.0) ids.now) }
{
    for id in ids {
        if !has_sort(sort, sort_in(known, *id)) {
            return false;
        }
    }
    true
}

fn are_sorted(known: &[Option<Sort>], ids: &[TermId]) -> bool
    ensures { result ≡ list_all is_sorted (map (λ id. sort_in known.now id.0) ids.now) }
{
    for id in ids {
        if sort_in(known, *id).is_none() {
            return false;
        }
    }
    true
}

/// Whether the terms have these sorts, in order.
fn have_sorts(sorts: &[Sort], known: &[Option<Sort>], ids: &[TermId]) -> bool
    ensures { result ≡ have_sorts sorts.now (map (λ id. sort_in known.now id.0) ids.now) }
{
    for i in 0..sorts.len() {
        if i >= ids.len() {
            return false;
        }
        if !has_sort(sorts[i], sort_in(known, ids[i])) {
            return false;
        }
    }
    ids.len() == sorts.len()
}

fn are_alike(known: &[Option<Sort>], ids: &[TermId]) -> bool
    ensures { result ≡ are_alike (map (λ id. sort_in known.now id.0) ids.now) }
{
    match ids {
        [] => true,
        [id, others @ ..] => all_as(sort_in(known, *id), known, others),
    }
}

/// Whether there is a sort, and all these terms have it.
fn all_as(sort: Option<Sort>, known: &[Option<Sort>], ids: &[TermId]) -> bool
    ensures { result ≡ are_alike (sort ∷ map (λ id. sort_in known.now id.0) ids.now) }
{
    match sort {
        None => false,
        Some(sort) => all_have(sort, known, ids),
    }
}

fn sort_if(test: bool, sort: Sort) -> Option<Sort>
    ensures { result ≡ sort_if test sort }
{
    if test { Some(sort) } else { None }
}

fn choice_sort(known: &[Option<Sort>], ids: &[TermId]) -> Option<Sort>
    ensures { result ≡ choice_sort (map (λ id. sort_in known.now id.0) ids.now) }
{
    match ids {
        [condition, one, other] => {
            chosen_sort(
                sort_in(known, *condition),
                sort_in(known, *one),
                sort_in(known, *other),
            )
        }
        _ => None,
    }
}

fn chosen_sort(condition: Option<Sort>, one: Option<Sort>, other: Option<Sort>) -> Option<Sort>
    ensures { result ≡ choice_sort (condition ∷ one ∷ other ∷ []) }
{
    match (condition, one) {
        (Some(Sort::Bool), Some(sort)) => sort_if(has_sort(sort, other), sort),
        _ => None,
    }
}

/// The sort of an operation that takes this many terms or more, all of the sort.
fn all_sort(
    sort: Sort,
    least: usize,
    known: &[Option<Sort>],
    ids: &[TermId],
    gives: Sort,
) -> Option<Sort>
    ensures { result ≡ sort_if (all_of sort least (map (λ id. sort_in known.now id.0) ids.now)) gives }
{
    sort_if(ids.len() >= least && all_have(sort, known, ids), gives)
}

fn operation_sort(op: OpKind, known: &[Option<Sort>], args: &[TermId]) -> Option<Sort>
    ensures { result ≡ operation_sort op (map (λ id. sort_in known.now id.0) args.now) }
{
    match op {
        OpKind::Not => sort_if(have_sorts(&[Sort::Bool], known, args), Sort::Bool),
        OpKind::And => all_sort(Sort::Bool, 1, known, args, Sort::Bool),
        OpKind::Or => all_sort(Sort::Bool, 1, known, args, Sort::Bool),
        OpKind::Xor => all_sort(Sort::Bool, 2, known, args, Sort::Bool),
        OpKind::Implies => all_sort(Sort::Bool, 2, known, args, Sort::Bool),
        OpKind::Eq => sort_if(args.len() >= 2 && are_alike(known, args), Sort::Bool),
        OpKind::Distinct => sort_if(are_few_alike(known, args), Sort::Bool),
        OpKind::Ite => choice_sort(known, args),
        OpKind::Add => all_sort(Sort::Int, 1, known, args, Sort::Int),
        OpKind::Mul => all_sort(Sort::Int, 1, known, args, Sort::Int),
        OpKind::Sub => all_sort(Sort::Int, 1, known, args, Sort::Int),
        OpKind::Abs => sort_if(have_sorts(&[Sort::Int], known, args), Sort::Int),
        OpKind::Div => sort_if(have_sorts(&[Sort::Int, Sort::Int], known, args), Sort::Int),
        OpKind::Mod => sort_if(have_sorts(&[Sort::Int, Sort::Int], known, args), Sort::Int),
        OpKind::Le => all_sort(Sort::Int, 2, known, args, Sort::Bool),
        OpKind::Lt => all_sort(Sort::Int, 2, known, args, Sort::Bool),
        OpKind::Ge => all_sort(Sort::Int, 2, known, args, Sort::Bool),
        OpKind::Gt => all_sort(Sort::Int, 2, known, args, Sort::Bool),
    }
}

fn are_few_alike(known: &[Option<Sort>], ids: &[TermId]) -> bool
    ensures { result ≡ (nat_le 2 (length ids.now) && (nat_le (length ids.now) most_distinct && are_alike (map (λ id. sort_in known.now id.0) ids.now))) }
{
    ids.len() >= 2 && ids.len() <= MOST_DISTINCT && are_alike(known, ids)
}

fn predicate_sort(
    preds: &[Pred],
    pred: u32,
    known: &[Option<Sort>],
    args: &[TermId],
) -> Option<Sort>
    ensures { result ≡ predicate_sort (slice_get preds.now pred) (map (λ id. sort_in known.now id.0) args.now) }
{
    match preds.get(pred as usize) {
        None => None,
        Some(declared) => {
            sort_if(
                have_sorts(declared.args.as_slice(), known, args),
                Sort::Bool,
            )
        }
    }
}

fn truth_sort(known: &[Option<Sort>], sort: Sort, id: TermId) -> Option<Sort>
    ensures { result ≡ sort_if (has_sort sort (sort_in known.now id.0)) Truth }
{
    sort_if(has_sort(sort, sort_in(known, id)), Sort::Bool)
}

fn let_sort(known: &[Option<Sort>], bound: &[TermId], body: TermId) -> Option<Sort>
    ensures { result ≡ (if list_all is_sorted (map (λ id. sort_in known.now id.0) bound.now) then sort_in known.now body.0 else None) }
{
    if are_sorted(known, bound) {
        sort_in(known, body)
    } else {
        None
    }
}

/// The sort of a node, where it is well sorted over parts of the sorts that are known.
pub(crate) fn node_sort(preds: &[Pred], node: &Node, known: &[Option<Sort>]) -> Option<Sort>
    ensures { result ≡ node_sort preds.now (sort_in known.now) node.now }
{
    match node {
        Node::Num(_) => Some(Sort::Int),
        Node::True => Some(Sort::Bool),
        Node::False => Some(Sort::Bool),
        Node::Var { sort, .. } => Some(*sort),
        Node::LetVar { bound } => sort_in(known, *bound),
        Node::Pred { pred, args } => predicate_sort(preds, *pred, known, args.as_slice()),
        Node::Op { op, args } => operation_sort(*op, known, args.as_slice()),
        Node::Divisible { arg, .. } => truth_sort(known, Sort::Int, *arg),
        Node::Let { bound, body } => let_sort(known, bound.as_slice(), *body),
        Node::Forall { body, .. } => truth_sort(known, Sort::Bool, *body),
        Node::Exists { body, .. } => truth_sort(known, Sort::Bool, *body),
    }
}
