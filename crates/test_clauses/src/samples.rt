//! The terms of the rows, and what is told of them.

ghost use Rattle.std.specs.Prelude.{◌≡◌, ◌++◌, ℕ, [], ◌∷◌, map, Some};
ghost use Rattle.std.specs.Ordering.{nat_cmp};
ghost use Rattle.std.specs.BTreeMap.{get};
ghost use Rattle.test_clauses.specs.machinery.Samples.{AreGiven, chosen, chosen_one, constants, made_of, named, row_terms, variables};

use crate::made::put;
use base::Items;
use std::alloc::Global;
use std::collections::BTreeMap;
use std::process::Abort;
use term_forms::Names;
use term_tables::{ConstantTable, SortTable};
use term_tree::{Node, OpKind, Sort, TermId, Terms};

/// What stands at a place of a row that is empty.
const NONE: u32 = 1000;

/// An operation: its operator and the numbers of its arguments, of which there are three at most.
type Row = (OpKind, u32, u32, u32);

/// The terms, with what the contracts of formulas ask.
#[derive(Drop)]
pub struct Given {
    pub terms: Terms,
    pub sorts: SortTable,
    pub constants: ConstantTable,
    pub names: Names,
}

fn put_one(rt: &impl Abort, ids: &mut Items<TermId>, id: u32)
    ensures { ids.new ≡ ids.old ++ chosen_one id }
{
    if id < NONE {
        ids.push(TermId(id)).expect(rt, "memory");
    }
}

fn chosen(rt: &impl Abort, alloc: Global, a: u32, b: u32, c: u32) -> Items<TermId>
    ensures { result ≡ chosen a b c }
{
    let mut ids = Items::new(alloc);
    put_one(rt, &mut ids, a);
    put_one(rt, &mut ids, b);
    put_one(rt, &mut ids, c);
    ids
}

fn put_row(rt: &impl Abort, alloc: Global, terms: &mut Terms, row: Row)
    ensures { terms.new.nodes ≡ terms.old.nodes ++ made_of row ∷ [] }
{
    let args = chosen(rt, alloc, row.1, row.2, row.3);
    put(rt, terms, Node::Op { op: row.0, args });
}

fn put_rows(rt: &impl Abort, alloc: Global, terms: &mut Terms, rows: &[Row])
    ensures { terms.new.nodes ≡ terms.old.nodes ++ map made_of rows.now }
{
    for row in rows {
        put_row(rt, alloc, terms, *row);
    }
}

fn put_variables(rt: &impl Abort, terms: &mut Terms)
    ensures { terms.new.nodes ≡ terms.old.nodes ++ variables }
{
    let (int, bool) = (Sort::Int, Sort::Bool);
    put(
        rt,
        terms,
        Node::Var {
            binder: 0,
            sort: int,
        },
    );
    put(
        rt,
        terms,
        Node::Var {
            binder: 1,
            sort: int,
        },
    );
    put(
        rt,
        terms,
        Node::Var {
            binder: 2,
            sort: bool,
        },
    );
    put(
        rt,
        terms,
        Node::Var {
            binder: 3,
            sort: bool,
        },
    );
}

fn put_constants(rt: &impl Abort, terms: &mut Terms)
    ensures { terms.new.nodes ≡ terms.old.nodes ++ constants }
{
    put(rt, terms, Node::True);
    put(rt, terms, Node::False);
    put(rt, terms, Node::Num(2));
    put(rt, terms, Node::Num(7));
}

fn put_named(rt: &impl Abort, alloc: Global, terms: &mut Terms)
    ensures { terms.new.nodes ≡ terms.old.nodes ++ named }
{
    put_row(rt, alloc, terms, (OpKind::Le, 0, 1, NONE));
    put(rt, terms, Node::LetVar { bound: TermId(8) });
    let bound = chosen(rt, alloc, 8, NONE, NONE);
    put(
        rt,
        terms,
        Node::Let {
            bound,
            body: TermId(9),
        },
    );
    put(
        rt,
        terms,
        Node::Divisible {
            by: 3,
            arg: TermId(0),
        },
    );
    put(rt, terms, Node::LetVar { bound: TermId(2) });
}

fn terms(rt: &impl Abort, alloc: Global) -> Terms
    ensures { result.nodes ≡ row_terms }
{
    let mut terms = Terms::new(alloc);
    put_variables(rt, &mut terms);
    put_constants(rt, &mut terms);
    put_named(rt, alloc, &mut terms);
    let rows = [
        (OpKind::Not, 2, NONE, NONE),
        (OpKind::And, 2, 3, NONE),
        (OpKind::Or, 2, 3, NONE),
        (OpKind::Implies, 2, 3, NONE),
        (OpKind::Xor, 2, 3, NONE),
        (OpKind::Eq, 2, 3, NONE),
        (OpKind::Distinct, 2, 3, NONE),
        (OpKind::Eq, 0, 1, NONE),
        (OpKind::Distinct, 0, 1, NONE),
        (OpKind::Lt, 0, 1, NONE),
        (OpKind::Ge, 0, 1, NONE),
        (OpKind::Gt, 0, 1, NONE),
        (OpKind::Ite, 2, 8, 22),
        (OpKind::Ite, 2, 0, 1),
        (OpKind::Abs, 0, NONE, NONE),
        (OpKind::Sub, 6, NONE, NONE),
        (OpKind::Div, 0, 28, NONE),
        (OpKind::Mod, 0, 28, NONE),
        (OpKind::Add, 0, 6, NONE),
        (OpKind::Eq, 0, 1, 31),
        (OpKind::Distinct, 0, 1, 31),
        (OpKind::Lt, 0, 1, 31),
        (OpKind::Eq, 2, 3, 4),
        (OpKind::Distinct, 2, 3, 4),
        (OpKind::Xor, 2, 3, 4),
        (OpKind::Implies, 2, 3, 8),
        (OpKind::And, 9, NONE, NONE),
        (OpKind::Eq, 8, 9, NONE),
        (OpKind::Xor, 8, 5, NONE),
        (OpKind::Ite, 8, 2, 3),
        (OpKind::Sub, 7, NONE, NONE),
        (OpKind::Div, 43, 6, NONE),
        (OpKind::Mod, 43, 6, NONE),
    ];
    put_rows(rt, alloc, &mut terms, &rows);
    terms
}

/// The auxiliary variable 4 is that of x <= y, and each variable has its own number.
fn names(rt: &impl Abort, alloc: Global) -> Names
    ensures own { result.own.items ≡ [] }
    ensures auxiliary { (id v : ℕ) → get nat_cmp result.auxiliary id ≡ Some v → (id ≡ 8) × (v ≡ 4) }
{
    let mut auxiliary = BTreeMap::new(alloc);
    let put: Result<_, _> = auxiliary.insert(8, 4);
    let _ = put.expect(rt, "memory");
    Names {
        own: Vec::new(alloc),
        auxiliary,
    }
}

pub fn all_given(rt: &impl Abort, alloc: Global) -> Given
    ensures { AreGiven result.terms.nodes result.constants result.names.own.items result.names.auxiliary }
{
    let terms = terms(rt, alloc);
    let sorts = SortTable::of(alloc, &[], &terms).expect(rt, "memory");
    let constants = ConstantTable::of(alloc, &terms).expect(rt, "memory");
    let names = names(rt, alloc);
    Given {
        terms,
        sorts,
        constants,
        names,
    }
}
