//! Rules of keys together: a table of what excludes, needs or attends what, and the loop over it.

ghost use Rattle.std.specs.Prelude.{◌≡◌, None, map, flat_map, if◌then◌else◌};
ghost use Rattle.ksv_yaml_tree.specs.Tree.{entry_at};
ghost use Rattle.ksv_yaml_tree.specs.View.{pair, seen_entry};
ghost use Rattle.ksv_schema.specs.KeyCode.{seen_type_at};
ghost use Rattle.ksv_schema.specs.Faults.{noted};
ghost use Rattle.ksv_schema.specs.Rules.{against, line_of_key, at_if, claimed, rule_faults, ruled_faults, rules, together};
ghost use Rattle.ksv_schema.specs.Code.{number_of, seen_fault, seen_claim, seen_rule, seen_ruled};

use self::Claim::{Has, IsInteger, Says};
use self::Rule::{Attends, Excludes, Needs};
use crate::keys::forms::Group::{Checks, Read, Values};
use crate::keys::forms::{Group, MappingKind, is_in};
use crate::keys::texts::{TypeKind, TypeText, is_a};
use crate::values::fault::DescFaultKind::{KeysAgainst, MissingKey};
use crate::values::fault::{DescFaultKind, Least, note, note_if};
use ksv_yaml_tree::keys::says;
use ksv_yaml_tree::{Entry, find};

/// What a rule of keys speaks of.
enum Claim {
    /// A key.
    Has(&'static [u8]),
    /// A key with this text.
    Says(&'static [u8], &'static [u8]),
    /// The key `type` with an integer.
    IsInteger,
}

/// A rule of keys.
enum Rule {
    /// The two exclude each other.
    Excludes(Claim, Claim),
    /// The first needs the second.
    Needs(Claim, Claim),
    /// The first is allowed only beside the second.
    Attends(Claim, Claim),
}

/// A rule of the mappings of a group.
struct Ruled(Group, Rule);

/// The rules of keys.
static RULES: [Ruled; 29] = [
    Ruled(Read, Needs(Says(b"repeat", b"expr"), Has(b"repeat-expr"))),
    Ruled(Read, Needs(Says(b"repeat", b"until"), Has(b"repeat-until"))),
    Ruled(Read, Attends(Has(b"repeat-expr"), Says(b"repeat", b"expr"))),
    Ruled(
        Read,
        Attends(Has(b"repeat-until"), Says(b"repeat", b"until")),
    ),
    Ruled(Read, Attends(Has(b"enum"), IsInteger)),
    Ruled(Read, Excludes(Has(b"size"), Says(b"size-eos", b"true"))),
    Ruled(Read, Excludes(Has(b"contents"), Has(b"type"))),
    Ruled(Read, Excludes(Has(b"contents"), Has(b"size"))),
    Ruled(Read, Excludes(Has(b"contents"), Has(b"size-eos"))),
    Ruled(Read, Excludes(Has(b"contents"), Has(b"terminator"))),
    Ruled(Read, Excludes(Has(b"contents"), Has(b"enum"))),
    Ruled(Read, Excludes(Has(b"contents"), Has(b"valid"))),
    Ruled(Read, Excludes(IsInteger, Has(b"size"))),
    Ruled(Read, Excludes(IsInteger, Says(b"size-eos", b"true"))),
    Ruled(Read, Excludes(IsInteger, Has(b"terminator"))),
    Ruled(Values, Excludes(Has(b"value"), Has(b"pos"))),
    Ruled(Values, Excludes(Has(b"value"), Has(b"io"))),
    Ruled(Values, Excludes(Has(b"value"), Has(b"type"))),
    Ruled(Values, Excludes(Has(b"value"), Has(b"size"))),
    Ruled(Values, Excludes(Has(b"value"), Has(b"repeat"))),
    Ruled(Checks, Excludes(Has(b"eq"), Has(b"any-of"))),
    Ruled(Checks, Excludes(Has(b"eq"), Has(b"expr"))),
    Ruled(Checks, Excludes(Has(b"eq"), Has(b"min"))),
    Ruled(Checks, Excludes(Has(b"eq"), Has(b"max"))),
    Ruled(Checks, Excludes(Has(b"any-of"), Has(b"expr"))),
    Ruled(Checks, Excludes(Has(b"any-of"), Has(b"min"))),
    Ruled(Checks, Excludes(Has(b"any-of"), Has(b"max"))),
    Ruled(Checks, Excludes(Has(b"expr"), Has(b"min"))),
    Ruled(Checks, Excludes(Has(b"expr"), Has(b"max"))),
];

/// A key, if something holds.
pub(crate) fn key_if<'a>(holds: bool, entries: &'a [Entry], key: &[u8]) -> Option<&'a Entry>
    ensures { seen_entry result ≡ (if holds then entry_at key.now (map pair entries.now) else None) }
{
    if holds { find(entries, key) } else { None }
}

/// The key by which a claim is so, among keys with this type at `type`.
fn claimed<'a>(claim: &Claim, typed: &Option<TypeText>, entries: &'a [Entry]) -> Option<&'a Entry>
    ensures { seen_entry result ≡ claimed (seen_type_at typed.now) (map pair entries.now) (seen_claim claim.now) }
{
    match claim {
        Has(key) => find(entries, key),
        Says(key, text) => key_if(says(entries, key, text), entries, key),
        IsInteger => key_if(is_a(TypeKind::Integer, typed), entries, b"type"),
    }
}

/// The line of a key, if there is one.
pub(crate) fn line_of_key(key: Option<&Entry>) -> Option<usize>
    ensures { result ≡ line_of_key (seen_entry key.entry) }
{
    Some(key?.line())
}

/// Notes two lines that are both there.
#[tactic(auto, using(crate::proofs::Noted::steps), unfolding(crate::specs::Rules::against))]
pub(crate) fn note_against(least: &mut Least, one: Option<usize>, other: Option<usize>)
    ensures { seen_fault least.new ≡ noted (seen_fault least.old) (against one other) }
{
    match one {
        None => {}
        Some(one) => match other {
            None => {}
            Some(other) => note(least, one.min(other), KeysAgainst),
        },
    }
}

/// Notes a key, if there is one with which something is wrong.
#[tactic(auto, using(crate::proofs::Noted::steps))]
pub(crate) fn note_at_if(
    least: &mut Least,
    is_wrong: bool,
    key: Option<&Entry>,
    kind: DescFaultKind,
)
    ensures { seen_fault least.new ≡ noted (seen_fault least.old) (at_if is_wrong (seen_entry key.entry) (number_of kind)) }
{
    match key {
        None => {}
        Some(entry) => note_if(least, is_wrong, entry.line(), kind),
    }
}

/// Notes what breaks a rule, in a mapping of this line.
fn note_rule(
    least: &mut Least,
    line: usize,
    typed: &Option<TypeText>,
    entries: &[Entry],
    rule: &Rule,
)
    ensures { seen_fault least.new ≡ noted (seen_fault least.old) (rule_faults line (seen_type_at typed.now) (map pair entries.now) (seen_rule rule.now)) }
{
    match rule {
        Excludes(one, other) => note_against(
            least,
            line_of_key(claimed(one, typed, entries)),
            line_of_key(claimed(other, typed, entries)),
        ),
        Needs(one, other) => {
            let needs = claimed(one, typed, entries).is_some();
            let lacks = claimed(other, typed, entries).is_none();
            note_if(least, needs & lacks, line, MissingKey);
        }
        Attends(one, other) => {
            let lacks = claimed(other, typed, entries).is_none();
            let attends = claimed(one, typed, entries);
            note_at_if(least, lacks, attends, KeysAgainst);
        }
    }
}

/// Notes what breaks a rule, if it is one of such mappings.
#[tactic(auto, using(crate::proofs::Noted::steps), unfolding(crate::specs::Rules::ruled_faults))]
fn note_ruled(
    least: &mut Least,
    kind: MappingKind,
    line: usize,
    typed: &Option<TypeText>,
    entries: &[Entry],
    ruled: &Ruled,
)
    ensures { seen_fault least.new ≡ noted (seen_fault least.old) (ruled_faults kind line (seen_type_at typed.now) (map pair entries.now) (seen_ruled ruled.now)) }
{
    if is_in(ruled.0, kind) {
        note_rule(least, line, typed, entries, &ruled.1);
    }
}

/// Notes what breaks each of these rules.
fn note_each(
    least: &mut Least,
    kind: MappingKind,
    line: usize,
    typed: &Option<TypeText>,
    entries: &[Entry],
    rules: &[Ruled],
)
    ensures { seen_fault least.new ≡ noted (seen_fault least.old) (flat_map (ruled_faults kind line (seen_type_at typed.now) (map pair entries.now)) (map seen_ruled rules.now)) }
{
    for ruled in rules {
        note_ruled(least, kind, line, typed, entries, ruled);
    }
}

/// Notes what breaks a rule, in a mapping of this kind with this first line and these keys.
pub(crate) fn note_together(
    least: &mut Least,
    kind: MappingKind,
    line: usize,
    typed: &Option<TypeText>,
    entries: &[Entry],
)
    ensures { seen_fault least.new ≡ noted (seen_fault least.old) (together kind line (seen_type_at typed.now) (map pair entries.now)) }
{
    note_each(least, kind, line, typed, entries, RULES.as_slice());
}
