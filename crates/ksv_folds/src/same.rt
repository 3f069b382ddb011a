//! Whether two lists are the same.
#![tactic(auto)]

ghost use Rattle.std.specs.Prelude.{◌≡◌, true, None, Some};
ghost use Rattle.ksv_nodes.specs.declared.node.NodeKind.TheVariants.{Head};

use ksv_desc::ByteOrder;
use ksv_expr_value::Stream;
use ksv_nodes::{List, NodeKind, ObjectOrigin, Origin};

/// Whether two numbers are the same, or there is neither.
pub(crate) fn same_number(one: Option<u32>, other: Option<u32>) -> bool
    ensures { result ≡ true → one ≡ other }
{
    match (one, other) {
        (None, None) => true,
        (Some(one), Some(other)) => one == other,
        _ => false,
    }
}

/// Whether two orders of bytes are the same.
pub(crate) fn same_order(one: ByteOrder, other: ByteOrder) -> bool
    ensures { result ≡ true → one ≡ other }
{
    match (one, other) {
        (ByteOrder::Little, ByteOrder::Little) | (ByteOrder::Big, ByteOrder::Big) => true,
        _ => false,
    }
}

/// Whether two streams are the same.
fn same_stream(one: Stream, other: Stream) -> bool
    ensures { result ≡ true → one ≡ other }
{
    one.from == other.from && same_number(one.to.get(), other.to.get())
}

/// Whether two things are read in the same way.
fn same_origin(one: Origin, other: Origin) -> bool
    ensures { result ≡ true → one ≡ other }
{
    one.member.type_number == other.member.type_number
        && one.member.member == other.member.member
        && same_number(one.case.get(), other.case.get())
        && same_stream(one.home, other.home)
}

/// Whether two lists are the same.
pub(crate) fn same_list(one: &List, other: &List) -> bool
    ensures { result ≡ true → one.now ≡ other.now }
{
    same_origin(one.origin, other.origin)
        && same_stream(one.stream, other.stream)
        && one.start.is_same(other.start)
        && same_number(one.count.get(), other.count.get())
        && one.is_empty == other.is_empty
}

/// Whether an object is read as a list is; the case of a list is that of none.
pub(crate) fn same_object(object: ObjectOrigin, list: Origin) -> bool
    ensures { result ≡ true → object ≡ Some (record list { case = None }) }
{
    match object.get() {
        Some(origin) => {
            origin.case.get().is_none()
                && same_stream(origin.home, list.home)
                && origin.member.type_number == list.member.type_number
                && origin.member.member == list.member.member
        }
        None => false,
    }
}

/// Whether a node is a head.
pub(crate) fn is_head(kind: NodeKind) -> bool
    ensures { result ≡ true → kind ≡ Head }
{
    match kind {
        NodeKind::Head => true,
        NodeKind::Value | NodeKind::End | NodeKind::Rest => false,
    }
}
