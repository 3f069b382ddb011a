//! Which keys each mapping of a description may have, and what is at each of them.

ghost use Rattle.std.specs.Prelude.{◌≡◌, map};
ghost use Rattle.std.specs.List.{list_all};
ghost use Rattle.ksv_yaml_tree.specs.View.{pair};
ghost use Rattle.ksv_schema.specs.Keys.{is_in, form_among, form_in, kind_of, is_letter, is_id_byte, is_id};
ghost use Rattle.ksv_schema.specs.KeyCode.{seen_key};

use ksv_schema_names::Role;
use ksv_yaml_tree::Entry;
use ksv_yaml_tree::keys::has;

/// What is at a key.
#[derive(Clone, Copy)]
pub(crate) enum Form {
    /// Anything; it has no meaning.
    Ignored,
    /// The key itself is unsupported.
    NotHere,
    /// A mapping.
    Mapping,
    /// A sequence.
    Listing,
    /// An id: `[a-z][a-z0-9_]*`.
    Id,
    /// `true` or `false`
    Flag,
    /// `eos`, `expr` or `until`
    Repeat,
    /// `le` or `be`; a choice by `switch-on` is unsupported.
    Endian,
    /// `be`; `le` is unsupported.
    BitEndian,
    /// ASCII or UTF-8, in any letter case; others are unsupported.
    Coding,
    /// A text without a meaning; `io` is unsupported.
    ParameterType,
    /// A text without a meaning.
    AnyText,
    /// A number from 0 to 255.
    Byte,
    /// What a description states: whoever reads the mapping reads it.
    Stated,
}

/// A mapping of fixed keys.
#[derive(Clone, Copy)]
pub(crate) enum MappingKind {
    /// The root.
    Root,
    /// Another type.
    Type,
    /// The key `meta` of the root.
    RootMeta,
    /// The key `meta` of another type.
    Meta,
    /// A parameter.
    Parameter,
    /// An attribute of a `seq`.
    Attribute,
    /// A parse instance.
    ParseInstance,
    /// An instance without a place and a value.
    Placeless,
    /// A value instance.
    Value,
    /// The key `type` of an attribute, if it is a mapping.
    Switch,
    /// The key `valid` of an attribute or instance, if it is a mapping.
    Check,
    /// The value of an entry of an enum, if it is a mapping.
    Constant,
}

/// Mappings that have something in common.
#[derive(Clone, Copy)]
pub(crate) enum Group {
    /// Types.
    Types,
    /// Each `meta`.
    Metas,
    /// Mappings that may have an id.
    Named,
    /// Parameters.
    Parameters,
    /// Instances that aren't values.
    Places,
    /// What is read, or would be if it had a place.
    Fields,
    /// What is read.
    Read,
    /// Value instances.
    Values,
    /// Switches.
    Switches,
    /// Mappings at `valid`.
    Checks,
}

/// Whether a mapping is one of a group.
pub(crate) fn is_in(group: Group, kind: MappingKind) -> bool
    ensures { result ≡ is_in group kind }
{
    use MappingKind::*;
    match group {
        Group::Types => matches!(kind, Root | Type),
        Group::Metas => matches!(kind, RootMeta | Meta),
        Group::Named => matches!(kind, RootMeta | Meta | Parameter | Attribute | Constant),
        Group::Parameters => matches!(kind, Parameter),
        Group::Places => matches!(kind, ParseInstance | Placeless),
        Group::Fields => matches!(kind, Attribute | ParseInstance | Placeless),
        Group::Read => matches!(kind, Attribute | ParseInstance),
        Group::Values => matches!(kind, Value),
        Group::Switches => matches!(kind, Switch),
        Group::Checks => matches!(kind, Check),
    }
}

/// A key: which mappings have it, its name, and what is at it.
struct Key(Group, &'static [u8], Form);

/// The keys of a description. Those of a value that are ignored are what `value` excludes.
static KEYS: [Key; 59] = [
    Key(Group::Types, b"meta", Form::Mapping),
    Key(Group::Types, b"params", Form::Listing),
    Key(Group::Types, b"seq", Form::Listing),
    Key(Group::Types, b"types", Form::Mapping),
    Key(Group::Types, b"instances", Form::Mapping),
    Key(Group::Types, b"enums", Form::Mapping),
    Key(Group::Named, b"id", Form::Id),
    Key(Group::Metas, b"endian", Form::Endian),
    Key(Group::Metas, b"encoding", Form::Coding),
    Key(Group::Metas, b"bit-endian", Form::BitEndian),
    Key(Group::Metas, b"title", Form::Ignored),
    Key(Group::Metas, b"application", Form::Ignored),
    Key(Group::Metas, b"file-extension", Form::Ignored),
    Key(Group::Metas, b"license", Form::Ignored),
    Key(Group::Metas, b"xref", Form::Ignored),
    Key(Group::Metas, b"ks-version", Form::Ignored),
    Key(Group::Metas, b"tags", Form::Ignored),
    Key(Group::Metas, b"imports", Form::NotHere),
    Key(Group::Metas, b"ks-opaque-types", Form::NotHere),
    Key(Group::Parameters, b"type", Form::ParameterType),
    Key(Group::Parameters, b"enum", Form::AnyText),
    Key(Group::Places, b"pos", Form::Stated),
    Key(Group::Places, b"io", Form::Stated),
    Key(Group::Fields, b"type", Form::Stated),
    Key(Group::Fields, b"size", Form::Stated),
    Key(Group::Fields, b"size-eos", Form::Flag),
    Key(Group::Fields, b"contents", Form::Stated),
    Key(Group::Fields, b"encoding", Form::Coding),
    Key(Group::Fields, b"terminator", Form::Byte),
    Key(Group::Fields, b"consume", Form::Flag),
    Key(Group::Fields, b"include", Form::Flag),
    Key(Group::Fields, b"eos-error", Form::Flag),
    Key(Group::Fields, b"repeat", Form::Repeat),
    Key(Group::Fields, b"repeat-expr", Form::Stated),
    Key(Group::Fields, b"repeat-until", Form::Stated),
    Key(Group::Fields, b"if", Form::Stated),
    Key(Group::Fields, b"enum", Form::Stated),
    Key(Group::Fields, b"process", Form::NotHere),
    Key(Group::Fields, b"pad-right", Form::NotHere),
    Key(Group::Fields, b"valid", Form::Stated),
    Key(Group::Values, b"value", Form::Stated),
    Key(Group::Values, b"if", Form::Stated),
    Key(Group::Values, b"enum", Form::Stated),
    Key(Group::Values, b"process", Form::NotHere),
    Key(Group::Values, b"pad-right", Form::NotHere),
    Key(Group::Values, b"valid", Form::Stated),
    Key(Group::Values, b"pos", Form::Ignored),
    Key(Group::Values, b"io", Form::Ignored),
    Key(Group::Values, b"type", Form::Ignored),
    Key(Group::Values, b"size", Form::Ignored),
    Key(Group::Values, b"repeat", Form::Ignored),
    Key(Group::Switches, b"switch-on", Form::Stated),
    Key(Group::Switches, b"cases", Form::Stated),
    Key(Group::Checks, b"eq", Form::Stated),
    Key(Group::Checks, b"any-of", Form::Stated),
    Key(Group::Checks, b"expr", Form::Stated),
    Key(Group::Checks, b"min", Form::Stated),
    Key(Group::Checks, b"max", Form::Stated),
    Key(Group::Checks, b"in-enum", Form::NotHere),
];

/// What is at a key, if one of these keys has this name in such a mapping.
#[tactic(auto, unfolding(crate::specs::Keys::form_among))]
fn form_among(keys: &[Key], kind: MappingKind, name: &[u8]) -> Option<Form>
    ensures { result ≡ form_among (map seen_key keys.now) kind name.now }
{
    for key in keys {
        if is_in(key.0, kind) && name == key.1 {
            return Some(key.2);
        }
    }
    None
}

/// What is at a key, if such a mapping may have it.
#[tactic(auto, unfolding(crate::specs::Keys::form_in))]
pub(crate) fn form_in(kind: MappingKind, key: &[u8]) -> Option<Form>
    ensures { result ≡ form_in kind key.now }
{
    form_among(KEYS.as_slice(), kind, key)
}

/// What the mapping of a member is, by the member's role.
pub(crate) fn kind_of(role: Role, entries: &[Entry]) -> MappingKind
    ensures { result ≡ kind_of role (map pair entries.now) }
{
    match role {
        Role::Parameter => MappingKind::Parameter,
        Role::Attribute => MappingKind::Attribute,
        Role::Instance => {
            if has(entries, b"value") {
                MappingKind::Value
            } else if has(entries, b"pos") {
                MappingKind::ParseInstance
            } else {
                MappingKind::Placeless
            }
        }
    }
}

fn is_letter(byte: u8) -> bool
    ensures { result ≡ is_letter byte }
{
    b'a' <= byte && byte <= b'z'
}

fn is_id_byte(byte: u8) -> bool
    ensures { result ≡ is_id_byte byte }
{
    is_letter(byte) || b'0' <= byte && byte <= b'9' || byte == b'_'
}

fn are_id_bytes(text: &[u8]) -> bool
    ensures { result ≡ list_all is_id_byte text.now }
{
    text.iter().all(|byte| is_id_byte(*byte))
}

/// Whether a text is an id: `[a-z][a-z0-9_]*`.
#[tactic(auto, unfolding(crate::specs::Keys::is_id))]
pub(crate) fn is_id(text: &[u8]) -> bool
    ensures { result ≡ is_id text.now }
{
    match text.split_first() {
        None => false,
        Some((first, rest)) => is_letter(*first) && are_id_bytes(rest),
    }
}
