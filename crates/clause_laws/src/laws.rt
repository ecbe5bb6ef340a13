//! Laws of normal clauses, as contracts of functions that do nothing.

ghost use Rattle.std.specs.Prelude.{◌≡◌, ◌↔◌, ℕ, ℤ, List, map, option_map};
ghost use Rattle.term_tree.specs.declared.scalar.Value.{Value};
ghost use Rattle.term_tree.specs.declared.script.Script.{Script};
ghost use Rattle.term_tree.specs.declared.definition.Definition.{Definition};
ghost use Rattle.term_tree.specs.Arena.{IsArena};
ghost use Rattle.term_tree.specs.Solution.{AreFormulas, DefinesEach, interpretation_of};
ghost use Rattle.horn_shape.specs.declared.clause.HornClause.{HornClause};
ghost use Rattle.horn_shape.specs.Breaking.{Breaks};
ghost use Rattle.horn_shape.specs.Clause.{IsClauseOf, IsLegalScript};
ghost use Rattle.horn_shape.specs.Instance.{IsInstance, conclusion_of, premises_of};
ghost use Rattle.clause_normal.specs.Normal.{normal_clause};
ghost use Rattle.clause_laws.specs.Point.{IsBreakingPointOver, IsInstanceAt, IsPointOver, at_point, numbers, of_ground};

/// The points of a normal clause's guard are the instances: integers for the assertion's own variables
/// are those of an instance exactly where they extend to a point of the guard; they extend in one way;
/// and there the atoms and the head have the tuples of the instance. Integers have no bound here.
pub fn guards_have_instances()
    ensures instances { (script : Script) (index : ℕ) (clause : HornClause) (own : List ℤ) →
        IsArena script.terms.nodes → IsLegalScript script → IsClauseOf script index clause →
        (IsInstanceAt script clause own ↔ ((point : List ℤ) × IsPointOver (normal_clause script clause) own point)) }
    ensures one_way { (script : Script) (index : ℕ) (clause : HornClause) (own p q : List ℤ) →
        IsArena script.terms.nodes → IsLegalScript script → IsClauseOf script index clause →
        IsPointOver (normal_clause script clause) own p → IsPointOver (normal_clause script clause) own q → p ≡ q }
    ensures atoms { (script : Script) (index : ℕ) (clause : HornClause) (values : List Value) (point : List ℤ) →
        IsArena script.terms.nodes → IsLegalScript script → IsClauseOf script index clause → IsInstance script clause values →
        IsPointOver (normal_clause script clause) (numbers values) point →
        map (at_point point) (normal_clause script clause).atoms ≡ map of_ground (premises_of script clause values) }
    ensures head { (script : Script) (index : ℕ) (clause : HornClause) (values : List Value) (point : List ℤ) →
        IsArena script.terms.nodes → IsLegalScript script → IsClauseOf script index clause → IsInstance script clause values →
        IsPointOver (normal_clause script clause) (numbers values) point →
        option_map (at_point point) (normal_clause script clause).head ≡ option_map of_ground (conclusion_of script clause values) }
{}

/// The points of the formula with definitions are the instances that make the assertion false under
/// them, those that break its clause: integers for the assertion's own variables are those of one
/// exactly where they extend to a point of it, and they extend in one way.
pub fn breaking_points_are_breaking_instances()
    ensures instances { (script : Script) (index : ℕ) (clause : HornClause) (defs : List Definition) (own : List ℤ) →
        IsArena script.terms.nodes → IsLegalScript script → IsClauseOf script index clause →
        DefinesEach 0 script.preds defs → AreFormulas script.preds defs →
        (((values : List Value) × (numbers values ≡ own) × Breaks (interpretation_of defs) script clause values)
        ↔ ((point : List ℤ) × IsBreakingPointOver defs (normal_clause script clause) own point)) }
    ensures one_way { (script : Script) (index : ℕ) (clause : HornClause) (defs : List Definition) (own p q : List ℤ) →
        IsArena script.terms.nodes → IsLegalScript script → IsClauseOf script index clause →
        DefinesEach 0 script.preds defs → AreFormulas script.preds defs →
        IsBreakingPointOver defs (normal_clause script clause) own p → IsBreakingPointOver defs (normal_clause script clause) own q → p ≡ q }
{}
