//! The context in which an expression is evaluated.
ghost use Rattle.std.specs.Prelude.{◌≡◌, None, Some, option_map};
ghost use Rattle.ksv_expr_value.specs.Setting.{Setting, NoElement, ElementAt, Made};

use crate::path::Path;
use crate::place::Place;
use crate::value::{Stream, Value};
use std::marker::Model;

/// What `_` is.
#[derive(Clone, Copy)]
pub enum Element<'a> {
    /// It may not be used.
    None,
    /// The element of this path, whose value is asked.
    At(&'a Path),
    /// This value, which was just made.
    Made(&'a Value),
}

/// The context in which an expression is evaluated.
#[derive(Drop)]
pub struct Ctx<'a> {
    /// The object that the expression belongs to.
    pub home: &'a Path,
    /// The home's stream.
    pub stream: Stream,
    /// The current place in the file.
    pub place: Place,
    /// The number of the element that the expression belongs to.
    pub index: Option<u32>,
    /// What `_` is.
    pub element: Element<'a>,
    /// The path of faults.
    pub here: &'a Path,
}

impl<'a> Model for Ctx<'a> {
    ghost use Rattle.ksv_expr_value.specs.Setting.{Setting};
    ghost use Rattle.ksv_expr_value.specs.Elements.{element_of};

    ghost Value = { Setting };

    ghost view = { λ c. record { home = c.home.now; stream = c.stream; place = c.place; index = c.index; element = element_of c.element; here = c.here.now } };
}

impl<'a> Ctx<'a> {
    /// The context of an expression of the object `home`, whose stream is `stream`, at the current place in the
    /// file, with faults at the path `here`. It is in no element.
    pub fn new(home: &'a Path, stream: Stream, place: Place, here: &'a Path) -> Ctx<'a>
        ensures { result ≡ record { home = home.now; stream = stream; place = place; index = None; element = NoElement; here = here.now } }
    {
        Ctx {
            home,
            stream,
            place,
            index: None,
            element: Element::None,
            here,
        }
    }

    /// The context within the element of this number.
    pub fn within(self, index: u32) -> Ctx<'a>
        ensures { result ≡ record self.entry { index = Some index } }
    {
        Ctx {
            home: self.home,
            stream: self.stream,
            place: self.place,
            index: Some(index),
            element: self.element,
            here: self.here,
        }
    }

    /// The context after the element of this path, which was just read.
    pub fn behind(self, element: &'a Path) -> Ctx<'a>
        ensures { result ≡ record self.entry { element = ElementAt element.now } }
    {
        Ctx {
            home: self.home,
            stream: self.stream,
            place: self.place,
            index: self.index,
            element: Element::At(element),
            here: self.here,
        }
    }

    /// The context with a value that was just made.
    pub fn with_value(self, value: &'a Value) -> Ctx<'a>
        ensures { result ≡ record self.entry { element = Made value.now } }
    {
        Ctx {
            home: self.home,
            stream: self.stream,
            place: self.place,
            index: self.index,
            element: Element::Made(value),
            here: self.here,
        }
    }
}
