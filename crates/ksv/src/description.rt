//! Reads a description.
ghost use Rattle.std.specs.Prelude.{◌≡◌, ◌⊎◌, IfOk, IfErr};
ghost use Rattle.ksv_yaml.specs.declared.fault.YamlKind.TheVariants as yaml_kinds;
ghost use Rattle.ksv_desc.specs.Description.{Description};
ghost use Rattle.ksv_desc.specs.Whole.{plain_pieces};
ghost use Rattle.ksv_schema.specs.declared.values.fault.DescFaultKind.TheVariants as kinds;
ghost use Rattle.ksv.specs.Accepted.{Describes};

use ksv_desc::Desc;
use ksv_expr_syntax::ExprFault;
use ksv_lines::Stop;
use ksv_schema::{DescFault, DescFaultKind, load};
use ksv_yaml::{YamlFault, YamlKind, read};
use std::alloc::Global;

/// A line or a place as messages have it.
fn shown(number: usize) -> u32 {
    u32::try_from(number).unwrap_or(u32::MAX)
}

/// The place of the fault in an expression.
fn place(kind: DescFaultKind) -> Option<u32> {
    match kind {
        DescFaultKind::NoExpression(ExprFault { at, .. }) => Some(shown(at)),
        _ => None,
    }
}

/// Why the program stops if a text has no tree.
fn of_yaml(fault: YamlFault) -> Stop
    ensures { fault.kind ≡ yaml_kinds.NoMemory → result ≡ Stop.NoMemory }
{
    match fault.kind {
        YamlKind::NoMemory => Stop::NoMemory,
        kind => Stop::Line {
            line: shown(fault.line),
            code: kind.code(),
            text: kind.text(),
            at: None,
        },
    }
}

/// Why the program stops if a tree states no description.
fn of_description(fault: DescFault) -> Stop
    ensures { fault.kind ≡ kinds.NoMemory → result ≡ Stop.NoMemory }
{
    match fault.kind {
        DescFaultKind::NoMemory => Stop::NoMemory,
        kind => Stop::Line {
            line: shown(fault.line),
            code: kind.code(),
            text: kind.text(),
            at: place(kind),
        },
    }
}

/// Reads the text of a description. It is refused if it spells no tree, or if its tree states no description.
pub fn describe(alloc: Global, ksy: &[u8]) -> Result<Desc, Stop>
    ensures described { IfOk result (λ desc. Describes ksy.now (plain_pieces desc)) }
    ensures refused { IfErr result (λ stop. (stop ≡ Stop.NoMemory) ⊎ ((d : Description) → Describes ksy.now d → ⊥)) }
{
    let tree = match read(alloc, ksy) {
        Ok(tree) => tree,
        Err(fault) => return Err(of_yaml(fault)),
    };
    match load(alloc, &tree) {
        Ok(desc) => Ok(desc),
        Err(fault) => Err(of_description(fault)),
    }
}
