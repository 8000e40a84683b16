// The two fields that no class declares (docs/FLOW-RULES.md, "Access paths"). Paths stand below, the crates that carry the
// rules out above.
ghost use Rattle.std.specs.Prelude.{◌≡◌};
ghost use Rattle.access_path.specs.Paths.{elements, inside};

use clean_base::FieldId;

/// The elements of an array.
pub const fn elements() -> FieldId
    ensures { result ≡ elements }
{
    FieldId(0)
}

/// What lies somewhere inside an object.
pub const fn inside() -> FieldId
    ensures { result ≡ inside }
{
    FieldId(1)
}
