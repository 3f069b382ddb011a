//! Methods by their names.
ghost use Rattle.std.specs.Prelude.{◌≡◌};
ghost use Rattle.ksv_expr_meaning.specs.Methods.{method_named};

use ksv_expr_meaning::Method;

/// The method of this name.
pub(crate) fn method_of_name(name: &str) -> Option<Method>
    ensures { result ≡ method_named name.now }
{
    match name {
        "first" => Some(Method::First),
        "last" => Some(Method::Last),
        "size" => Some(Method::Size),
        "length" => Some(Method::Length),
        "reverse" => Some(Method::Reverse),
        "substring" => Some(Method::Substring),
        "to_i" => Some(Method::ToInteger),
        "to_s" => Some(Method::ToText),
        "pos" => Some(Method::Place),
        "eof" => Some(Method::IsAtEnd),
        _ => None,
    }
}
