ghost use Rattle.std.specs.Prelude.{◌≡◌, ◌+◌, ◌<◌, ◌^◌, ◌++◌, [], length, take, slice_get, Some, OnOk, IfOk};
ghost use Rattle.term_check.specs.machinery.Known.{below_quantifier, below_let, outside};
ghost use Rattle.term_check.specs.Spelling.{bound_to, scope_of};

use crate::bindings::Bindings;
use crate::part::Part;
use crate::scope::Bound;
use crate::signature::Signature;
use base::Memory;
use keyed_hash::KeyedState;
use sexp_read::Tree;
use std::alloc::Global;
use std::marker::Model;
use term_tree::{Pred, TermId};

/// What terms of a text are read with: the declared predicates, whether there may be quantifiers, the
/// names that are bound around the term, and the terms of the `let`s among them, by number.
pub struct Context<'a> {
    alloc: Global,
    text: &'a [u8],
    signature: &'a Signature,
    quantifies: bool,
    bindings: Bindings<'a>,
    lets: Vec<TermId>,
    /// Lists that serve one application after the other.
    spare: Vec<Vec<Part>>,
}

impl<'a> Drop for Context<'a> {
    fn drop(self) {
        let Context {
            alloc: _,
            text: _,
            signature: _,
            quantifies: _,
            bindings: _,
            lets: _,
            spare: _,
        } = self;
    }
}

impl<'a> Model for Context<'a> {
    ghost use Rattle.term_check.specs.machinery.Known.{Known};

    ghost Value = { Known };

    ghost view = { λ r. record { text = r.text.now; scope = record { preds = r.signature.now; names = r.bindings; quantifies = r.quantifies }; lets = r.lets.items } };
}

impl<'a> Context<'a> {
    /// A context with these names around its terms, none of them of a `let`.
    pub fn new(
        alloc: Global,
        text: &'a [u8],
        signature: &'a Signature,
        bindings: Bindings<'a>,
        quantifies: bool,
    ) -> Context<'a>
        ensures { result ≡ record { text = text.now; scope = scope_of signature.now bindings.entry quantifies; lets = [] } }
    {
        Context {
            alloc,
            text,
            signature,
            quantifies,
            bindings,
            lets: Vec::new(alloc),
            spare: Vec::new(alloc),
        }
    }

    pub fn alloc(&self) -> Global {
        self.alloc
    }

    /// The key under which names are hashed.
    pub fn key(&self) -> KeyedState {
        self.signature.key()
    }

    pub fn text(&self) -> &'a [u8]
        ensures { result.now ≡ self.now.text }
    {
        self.text
    }

    pub fn signature(&self) -> &'a Signature
        ensures { result.now ≡ self.now.scope.preds }
    {
        self.signature
    }

    /// Whether there may be quantifiers.
    pub fn quantifies(&self) -> bool
        ensures { result ≡ self.now.scope.quantifies }
    {
        self.quantifies
    }

    /// What the innermost of that name stands for.
    pub fn bound_to(&self, name: &[u8]) -> Option<Bound>
        ensures { result ≡ bound_to name.now self.now.scope.names }
    {
        self.bindings.bound_to(name)
    }

    /// The term of that number that a `let` binds.
    pub fn let_term(&self, number: u32) -> TermId
        requires { number < length self.now.lets }
        ensures { slice_get self.now.lets number ≡ Some result }
    {
        self.lets[number as usize]
    }

    /// A list without parts: one that was given back, or a new one with room for `count`.
    pub fn no_parts(&mut self, count: usize) -> Result<Vec<Part>, Memory>
        ensures none { IfOk result (λ parts. parts.items ≡ []) }
        ensures same { self.new ≡ self.old }
    {
        match self.spare.pop() {
            Some(mut parts) => {
                parts.clear();
                Ok(parts)
            }
            None => Ok(Vec::with_capacity(self.alloc, count)?),
        }
    }

    /// Takes a list back that is of no more use.
    pub fn give_back(&mut self, parts: Vec<Part>) -> Result<(), Memory>
        ensures { self.new ≡ self.old }
    {
        self.spare.push(parts)?;
        Ok(())
    }

    /// How many names are bound.
    pub fn names(&self) -> usize
        ensures { result ≡ length self.now.scope.names }
    {
        self.bindings.len()
    }

    /// How many terms `let` binds.
    pub fn lets(&self) -> usize
        ensures { result ≡ length self.now.lets }
    {
        self.lets.len()
    }

    /// Binds the variables of a quantifier, numbered from here on.
    pub fn bind_variables(&mut self, first: u32, items: &[Tree]) -> Result<(), Memory>
        requires { first + length items.now < 2 ^ 32 }
        ensures { OnOk result (self.new ≡ below_quantifier self.old first items.now) }
    {
        self.bindings.bind_variables(self.text, first, items)
    }

    /// Binds the names of a `let` to its terms.
    pub fn bind_lets(
        &mut self,
        items: &[Tree],
        parts: &[Part],
        ids: &[TermId],
    ) -> Result<(), Memory>
        requires { length self.old.lets + length parts.now < 2 ^ 32 }
        ensures { OnOk result (self.new ≡ below_let self.old items.now parts.now ids.now) }
    {
        let first = self.lets.len() as u32;
        self.bindings.bind_lets(self.text, first, items, parts)?;
        self.lets.extend_from_slice(ids)?;
        Ok(())
    }

    /// Forgets the innermost names and terms of `let`, so that at most `names` and `lets` are left.
    pub fn leave(&mut self, names: usize, lets: usize)
        ensures { self.new ≡ outside names lets self.old }
    {
        self.bindings.leave(names);
        self.lets.truncate(lets);
    }
}
