//! Laws of the definitions. They call nothing: each is its contract.

ghost use Rattle.std.specs.Prelude.{◌≡◌, ℕ, List};
ghost use Rattle.script_code.specs.Tree.{Term};
ghost use Rattle.script_grammar.specs.Tree.{ExprTree};
ghost use Rattle.swift_script.specs.Accepted.{WasAccepted};
ghost use Rattle.swift_script.specs.Scripts.{ScriptView};
ghost use Rattle.expectations.specs.Texts.{IsTest, SpellsExpression};

/// A text spells at most one expression.
pub fn one_expression()
    ensures { (text : List ℕ) (a b : ExprTree) → SpellsExpression text a → SpellsExpression text b → a ≡ b }
{}

/// A text is at most one expectation of a script that is accepted: each of its names stands for one field, or for one root.
pub fn one_test()
    ensures { (p : ScriptView) (text : List ℕ) (s t : Term) → WasAccepted p → IsTest p text s → IsTest p text t → s ≡ t }
{}
