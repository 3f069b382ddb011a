//! The names of a description, by number.

ghost use Rattle.std.specs.Prelude.{◌≡◌, ◌↔◌, IsTrue, ◌≤◌, ◌^◌, ℕ, List, [], ◌∷◌, map, length, string_bytes, slice_get, unwrap_or, OnOk, OnErr};
ghost use Rattle.ksv_expr_tree.specs.Tree.{view, arguments_of};
ghost use Rattle.ksv_desc.specs.Names.{distinct_behind, number_in, dotted, all_dotted};
ghost use Rattle.ksv_desc.specs.Code.{dotted_in, AreNumbered};

use ksv_expr_tree::Expr;
use std::alloc::{AllocError, Global};
use std::collections::HashMap;
use std::marker::Model;

/// How many names a table may have at most.
const MOST: usize = 0x1_0000_0000;

/// A table of names. Each name is there once, and its place is its number.
#[derive(Drop)]
pub struct Names {
    /// The names, by number.
    texts: Vec<String>,
    /// The number of each name.
    numbers: HashMap<String, u32>,
}

impl Model for Names {
    ghost Value = { List (List ℕ) };

    ghost view = { λ n. map string_bytes n.texts.items };

    ghost invariant = { λ n. AreNumbered (map string_bytes n.texts.items) n.numbers };
}

impl Names {
    /// A table of no names.
    pub fn new(alloc: Global) -> Self
        ensures { result ≡ [] }
    {
        Names {
            texts: Vec::new(alloc),
            numbers: HashMap::new(alloc),
        }
    }

    /// How many names there are.
    pub fn len(&self) -> usize
        ensures { result ≡ length self.now }
    {
        self.texts.len()
    }

    /// Whether there are none.
    pub fn is_empty(&self) -> bool
        ensures { IsTrue result ↔ (self.now ≡ []) }
    {
        self.len() == 0
    }

    /// Adds a name, unless it is there.
    pub fn add(&mut self, name: &str) -> Result<(), AllocError>
        ensures added { OnOk result (self.new ≡ distinct_behind self.old (name.now ∷ [])) }
        ensures kept { OnErr result (self.new ≡ self.old) }
    {
        if self.numbers.contains_key(name) {
            return Ok(());
        }
        let number = self.texts.len();
        if number >= MOST {
            return Err(AllocError);
        }
        let alloc = *self.texts.allocator();
        let key = String::from_str(alloc, name)?;
        self.texts.push(String::from_str(alloc, name)?)?;
        if self.numbers.insert(key, number as u32).is_err() {
            self.texts.pop();
            return Err(AllocError);
        }
        Ok(())
    }

    /// Adds the names after the dots of an expression. If memory is refused, some of them are added.
    #[tactic(auto, unfolding(crate::specs::Code::dotted_in))]
    pub fn add_dotted(&mut self, expr: &Expr) -> Result<(), AllocError>
        ensures { OnOk result (self.new ≡ distinct_behind self.old (dotted (view expr.now))) }
    {
        add_in(self, expr)
    }

    /// Adds the names after the dots of a type's arguments. If memory is refused, some of them are added.
    pub fn add_all_dotted(&mut self, arguments: &[Expr]) -> Result<(), AllocError>
        ensures { OnOk result (self.new ≡ distinct_behind self.old (all_dotted (arguments_of (map view arguments.now)))) }
    {
        add_in_each(self, arguments)
    }

    /// The number of a name.
    pub fn number_of(&self, name: &str) -> Option<u32>
        ensures { result ≡ number_in self.now name.now }
    {
        self.numbers.get(name).copied()
    }

    /// The name that has a number, or the empty text.
    pub fn name(&self, number: u32) -> &str
        ensures { result.now ≡ unwrap_or (slice_get self.now number) [] }
    {
        match self.texts.get(number as usize) {
            Some(name) => name.as_str(),
            None => "",
        }
    }
}

/// Adds the names after the dots of an expression.
#[cycle(dots)]
#[tactic(auto, using(crate::proofs::Dots::steps, crate::proofs::Dots::leaves))]
fn add_in(names: &mut Names, expr: &Expr) -> Result<(), AllocError>
    ensures { OnOk result (names.new ≡ distinct_behind names.old (dotted_in expr.now)) }
{
    match expr {
        Expr::Literal(_) | Expr::Name(_) | Expr::Special(_) | Expr::Member(_) => Ok(()),
        Expr::Binary(_, left, right) | Expr::Logical(_, left, right) | Expr::Index(left, right) => {
            add_in(names, left)?;
            add_in(names, right)
        }
        Expr::Choice(condition, yes, no) => {
            add_in(names, condition)?;
            add_in(names, yes)?;
            add_in(names, no)
        }
        Expr::Field(object, name) => {
            add_in(names, object)?;
            names.add(name.text.as_str())
        }
        Expr::Call(object, _, arguments) => {
            add_in(names, object)?;
            add_in_each(names, arguments)?;
            Ok(())
        }
        Expr::Unary(_, object) | Expr::SpecialField(object, _) | Expr::Cast(object, _) => {
            add_in(names, object)
        }
    }
}

/// Adds the names in each of some arguments.
#[cycle(dots)]
fn add_in_each(names: &mut Names, arguments: &[Expr]) -> Result<(), AllocError>
    ensures { OnOk result (names.new ≡ distinct_behind names.old (all_dotted (arguments_of (map view arguments.now)))) }
{
    for argument in arguments {
        add_in(names, argument)?;
    }
    Ok(())
}
