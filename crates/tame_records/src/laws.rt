//! Laws of records, over their definitions.
ghost use Rattle.std.specs.Prelude.{◌≡◌, ◌↔◌, Some};
ghost use Rattle.serde_json.specs.Data.{Data};
ghost use Rattle.tame_records.specs.OptionalMembers.{HasOptionalMembers};
ghost use Rattle.tame_records.specs.Record.{optional_of};
ghost use Rattle.tame_records.specs.declared.versions.OptionalMembers.{OptionalMembers};

/// A value has optional members exactly if each of the six, by itself and in any order, is left out
/// or has its form, and then each is what its member says.
pub fn optional_members_one_by_one()
    ensures { (value : Data) (o : OptionalMembers)
        → (optional_of value ≡ Some o) ↔ HasOptionalMembers value o }
{}
