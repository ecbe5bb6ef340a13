use chc_tokens::Goal;
use cube_forms::Lemma;
use cube_rules::same_lemma;

/// What proofs are asked for: that no instance makes false, or that a lemma holds of its predicate.
#[derive(Drop)]
pub(crate) enum Claim {
    False,
    Holds(u32, Lemma),
}

impl Claim {
    ghost use Rattle.std.specs.Prelude.{◌≡◌, Option, Some, None};
    ghost use Rattle.book_rules.specs.Frames.{same_lemma};
    ghost use Rattle.book_rules.specs.Proofs.{pred_of, same_goal};
    ghost use Rattle.book_rules.specs.Walks.{has};
    ghost use Rattle.step_rules.specs.Tokens.{goal_of};
    ghost use Rattle.step_rules.specs.machinery.Claims.{claim_of};

    /// The lemma's predicate; none for false.
    pub(crate) fn pred(&self) -> Option<u32>
        ensures { result ≡ pred_of (claim_of self.now) }
    {
        match self {
            Claim::False => None,
            Claim::Holds(pred, _) => Some(*pred),
        }
    }

    /// Whether a token's goal is this claim.
    pub(crate) fn is_goal(&self, goal: &Goal) -> bool
        ensures { result ≡ same_goal (goal_of goal.now) (claim_of self.now) }
    {
        match (self, goal) {
            (Claim::False, Goal::Query) => true,
            (Claim::Holds(_, lemma), Goal::Holds(other)) => same_lemma(other, lemma),
            _ => false,
        }
    }

    /// Whether a lemma on a predicate is the claim.
    pub(crate) fn is_lemma(&self, pred: u32, lemma: &Lemma) -> bool
        ensures { result ≡ has (claim_of self.now) (λ itself. same_lemma itself (record { pred = pred; cube = lemma.now })) }
    {
        match self {
            Claim::False => false,
            Claim::Holds(of, itself) => *of == pred && same_lemma(itself, lemma),
        }
    }
}
