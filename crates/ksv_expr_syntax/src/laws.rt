//! Laws of the language, each a contract of a function that does nothing.

ghost use Rattle.std.specs.Prelude.{◌≡◌, ◌≤◌, ◌↔◌, ℕ, List, ◌++◌, length, IsTrue};
ghost use Rattle.ksv_expr_tree.specs.Tree.{Tree, TypeTree};
ghost use Rattle.ksv_expr_syntax.specs.Lexemes.{Lexeme};
ghost use Rattle.ksv_expr_syntax.specs.Tokens.{Cut, IsToken, IsLongest, skip, less_follows};
ghost use Rattle.ksv_expr_syntax.specs.Text.{SpellsText, SpellsTypeText};
ghost use Rattle.ksv_expr_syntax.specs.declared.token.Symbol.TheVariants.{Less};

/// No text spells two expressions, and none two types.
pub fn one_reading()
    ensures expressions { (text : List ℕ) (a b : Tree) → SpellsText text a → SpellsText text b → a ≡ b }
    ensures types { (text : List ℕ) (a b : TypeTree) → SpellsTypeText text a → SpellsTypeText text b → a ≡ b }
{}

/// A text begins with at most one longest token, and no other token that it begins with has more bytes.
pub fn one_longest_token()
    ensures alone { (text : List ℕ) (x y : Cut) → IsLongest text x → IsLongest text y → x ≡ y }
    ensures longest { (text piece : List ℕ) (x y : Cut) → IsLongest text x → text ≡ piece ++ y.rest → IsToken piece y.lexeme → length x.rest ≤ length y.rest }
{}

/// The test by which `as` after a dot begins a cast holds exactly where `<` is the longest token after white space.
pub fn less_stands_behind()
    ensures { (text : List ℕ) → IsTrue (less_follows text) ↔ ((x : Cut) × IsLongest (skip text) x × (x.lexeme ≡ Lexeme.symbol Less)) }
{}
