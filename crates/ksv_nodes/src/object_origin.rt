//! How an object is read.
ghost use Rattle.std.specs.Prelude.{◌≡◌, Some, None, IfOk, OnErr};

use crate::case_number::CaseNumber;
use crate::given::{MemberRef, Origin};
use ksv_expr_value::{Stream, StreamEnd};
use std::alloc::AllocError;
use std::marker::Model;

/// How an object is read, if it isn't the root, in the room of an origin. Contracts see that optional origin.
#[derive(Clone, Copy)]
pub struct ObjectOrigin {
    /// The origin; that of the root is of a type of the greatest number.
    origin: Origin,
}

impl Model for ObjectOrigin {
    ghost use Rattle.std.specs.Prelude.{Option};
    ghost use Rattle.ksv_nodes.specs.declared.given.Origin.{Origin};
    ghost use Rattle.ksv_nodes.specs.Origins.{optional_of, origin_for, IsOne, origin_back};

    ghost Value = { Option Origin };

    ghost view = { λ object. optional_of object.origin };

    ghost invariant = { λ object. IsOne object.origin };

    ghost inverse = { λ origin. record { origin = origin_for origin } };

    ghost inverse_ok = { λ object h i. record { origin = origin_back object.origin h i } };
}

impl ObjectOrigin {
    /// The root is read by nothing.
    #[inline(always)]
    pub fn of_root() -> ObjectOrigin
        ensures { result ≡ None }
    {
        ObjectOrigin {
            origin: Origin {
                member: MemberRef {
                    type_number: u32::MAX,
                    member: 0,
                },
                case: CaseNumber::none(),
                home: Stream {
                    from: 0,
                    to: StreamEnd::open(),
                },
            },
        }
    }

    /// An object that is read so. No contract bounds the types of a description, so a member of the type of the greatest number of
    /// 32 bits, which means the root and is the last of a list of hundreds of gigabytes, is refused as memory is.
    #[inline(always)]
    pub fn new(origin: Origin) -> Result<ObjectOrigin, AllocError>
        ensures same { IfOk result (λ object. object ≡ Some origin) }
        ensures far { OnErr result (origin.member.type_number ≡ 4294967295) }
    {
        if origin.member.type_number == u32::MAX {
            return Err(AllocError);
        }
        Ok(ObjectOrigin { origin })
    }

    /// How the object is read; none of the root.
    #[inline(always)]
    pub fn get(self) -> Option<Origin>
        ensures { result ≡ self }
    {
        if self.origin.member.type_number == u32::MAX {
            None
        } else {
            Some(self.origin)
        }
    }
}
