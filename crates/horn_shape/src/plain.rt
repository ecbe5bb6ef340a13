//! Which terms have neither predicates nor quantifiers.

ghost use Rattle.std.specs.Prelude.{◌≡◌, IfOk, ℕ, ◌<◌, ◌^◌};
ghost use Rattle.std.specs.List.{list_all};
ghost use Rattle.horn_shape.specs.Plain.{is_plain_term, node_is_plain};
ghost use Rattle.horn_shape.specs.Flags.{flag_of, ArePlainFlags};

use base::Memory;
use std::alloc::Global;
use std::marker::Model;
use term_tree::{Node, TermId, Terms};

/// Which terms of a script have neither predicates nor quantifiers. It is found once, from each term's
/// parts, and serves every assertion of the script.
#[derive(Drop)]
pub struct PlainTerms {
    flags: Vec<bool>,
}

impl Model for PlainTerms {
    ghost use Rattle.std.specs.Prelude.{List, Bool};

    ghost Value = { List Bool };

    ghost view = { λ p. p.flags.items };
}

impl PlainTerms {
    /// Looks at every term once.
    pub fn of(alloc: Global, terms: &Terms) -> Result<PlainTerms, Memory>
        ensures { IfOk result (λ plain. ArePlainFlags terms.now.nodes plain) }
    {
        let mut flags = Vec::new(alloc);
        for i in 0..terms.len() {
            let Ok(number) = u32::try_from(i) else {
                return Ok(PlainTerms { flags });
            };
            let flag = node_is_plain(terms.node(TermId(number)), flags.as_slice());
            flags.push(flag)?;
        }
        Ok(PlainTerms { flags })
    }

    /// Whether the term has neither predicates nor quantifiers.
    pub(crate) fn is_plain(&self, id: TermId) -> bool
        ensures flag { result ≡ flag_of self.now id.0 }
        ensures short { id.0 < 2 ^ 32 }
    {
        let _number = id.0;
        flag(self.flags.as_slice(), id)
    }

    /// Whether each of the terms has neither predicates nor quantifiers.
    pub(crate) fn are_plain(&self, ids: &[TermId]) -> bool
        ensures { result ≡ list_all (λ id. flag_of self.now id.0) ids.now }
    {
        are_flagged(self.flags.as_slice(), ids)
    }
}

fn flag(flags: &[bool], id: TermId) -> bool
    ensures { result ≡ flag_of flags.now id.0 }
{
    let place = id.0 as usize;
    if place < flags.len() {
        flags[place]
    } else {
        false
    }
}

fn are_flagged(flags: &[bool], ids: &[TermId]) -> bool
    ensures { result ≡ list_all (λ id. flag_of flags.now id.0) ids.now }
{
    ids.iter().all(|id| flag(flags, *id))
}

/// What the flags of its parts say of a node.
fn node_is_plain(node: &Node, flags: &[bool]) -> bool
    ensures { result ≡ node_is_plain (flag_of flags.now) node.now }
{
    match node {
        Node::Num(_) | Node::True | Node::False | Node::Var { .. } => true,
        Node::LetVar { bound } => flag(flags, *bound),
        Node::Pred { .. } => false,
        Node::Op { args, .. } => are_flagged(flags, args.as_slice()),
        Node::Divisible { arg, .. } => flag(flags, *arg),
        Node::Let { bound, body } => are_flagged(flags, bound.as_slice()) && flag(flags, *body),
        Node::Forall { .. } | Node::Exists { .. } => false,
    }
}
