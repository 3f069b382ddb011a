//! What is read from a text is what it spells: a law, the contract of a function that does nothing.

ghost use Rattle.std.specs.Prelude.{◌≡◌, ℕ, List, Some};
ghost use Rattle.ksv_expr_tree.specs.Tree.{Tree, TypeTree};
ghost use Rattle.ksv_expr_syntax.specs.Text.{SpellsText, SpellsTypeText};
ghost use Rattle.ksv_schema.specs.Expressions.{expression_of, type_of};

/// The expression, and the type with its arguments, that is read from a text of a description is the one that the
/// text spells.
pub fn texts_are_spelled()
    ensures expression_sound { (text : List ℕ) (e : Tree) → expression_of text ≡ Some e → SpellsText text e }
    ensures expression_complete { (text : List ℕ) (e : Tree) → SpellsText text e → expression_of text ≡ Some e }
    ensures type_sound { (text : List ℕ) (t : TypeTree) → type_of text ≡ Some t → SpellsTypeText text t }
    ensures type_complete { (text : List ℕ) (t : TypeTree) → SpellsTypeText text t → type_of text ≡ Some t }
{}
