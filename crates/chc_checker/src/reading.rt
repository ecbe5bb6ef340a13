//! What is read as an answer can be checked.

ghost use Rattle.std.specs.Prelude.{◌≡◌, ℕ, ℤ, List, pos, int_lt, true};
ghost use Rattle.base.specs.Widths.{short_limit};
ghost use Rattle.term_tree.specs.declared.node.TermId.{TermId};
ghost use Rattle.term_tree.specs.declared.node.Node.TheVariants.{Divisible};
ghost use Rattle.answer_text.specs.Read.{Spells};
ghost use Rattle.chc_checker.specs.Verdicts.{IsCheckable};
ghost use Rattle.chc_checker.specs.machinery.Reading.{AreFit, HasFittingDivisors, IsFit};

use answer_text::Answer;
use clause_normal::has_number;
use term_tree::{Definition, Node, Script, TermId, Terms};

/// The divisor of a divisibility is less than 2^63, for a proof that needs it.
fn divisor_fits(node: &Node)
    ensures { (by : ℤ) (arg : TermId) → node.now ≡ Divisible by arg → int_lt by (pos short_limit) ≡ true }
{
    if let Node::Divisible { by, .. } = node {
        let _by = *by;
    }
}

/// Each divisor in the terms is less than 2^63, for a proof that needs it of all terms.
fn divisors_fit(terms: &Terms)
    ensures { HasFittingDivisors terms.now.nodes }
{
    for i in 0..terms.len() {
        let Ok(number) = u32::try_from(i) else {
            return;
        };
        divisor_fits(terms.node(TermId(number)));
    }
}

/// What a definition has as a value of its type.
fn is_fit(definition: &Definition)
    ensures { IsFit definition.now }
{
    has_number(definition.body);
    definition.terms.arena_law();
    divisors_fit(&definition.terms);
}

fn are_fit(definitions: &[Definition])
    ensures { AreFit definitions.now }
{
    for definition in definitions {
        is_fit(definition);
    }
}

/// An answer that a text spells over the predicates of the script can be checked: definitions are
/// formulas, one for each predicate in order of declaration. It looks at each term once, and changes
/// nothing.
pub fn is_checkable(script: &Script, answer: &Answer)
    ensures { (text : List ℕ) → Spells script.now.preds text answer.now → IsCheckable script.now answer.now }
{
    if let Answer::Sat(definitions) = answer {
        are_fit(definitions.as_slice());
    }
}
