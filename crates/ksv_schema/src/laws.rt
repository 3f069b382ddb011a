//! Laws of descriptions, each a contract of a function that does nothing.

ghost use Rattle.std.specs.Prelude.{◌≡◌, ◌≢◌, []};
ghost use Rattle.ksv_yaml_tree.specs.Tree.{Tree as Yaml};
ghost use Rattle.ksv_schema.specs.Faults.{Fault};
ghost use Rattle.ksv_schema.specs.Description.{faults};
ghost use Rattle.ksv_desc.specs.Description.{Description};
ghost use Rattle.ksv_desc.specs.Resolved.{IsResolved};
ghost use Rattle.ksv_schema.specs.Outcome.{States, Refuses};

/// A tree without a fault states a description, and no tree states two.
pub fn faultless_trees_state()
    ensures some { (t : Yaml) → faults t ≡ [] → (d : Description) × States t d }
    ensures one { (t : Yaml) (d e : Description) → States t d → States t e → d ≡ e }
{}

/// A tree with a fault is refused, and for one fault alone.
pub fn faulty_trees_are_refused()
    ensures some { (t : Yaml) → faults t ≢ [] → (f : Fault) × Refuses t f }
    ensures one { (t : Yaml) (f g : Fault) → Refuses t f → Refuses t g → f ≡ g }
{}

/// In a description that a tree states each number belongs to a name, a type, an enum or an enum's member in it, and
/// each parameter has its argument.
pub fn descriptions_are_resolved()
    ensures { (t : Yaml) (d : Description) → States t d → IsResolved d }
{}
