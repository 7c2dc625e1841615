//! What holds of edited objects.
ghost use Rattle.std.specs.Prelude.{◌≡◌, []};
ghost use Rattle.elf_object_edit.specs.Without.{object_without};
ghost use Rattle.elf_object_type.specs.Object.{ObjectValue};
ghost use Rattle.elf_object_type.specs.ObjectRules.{IsObject};

/// If no section is left out, it is the object itself.
pub fn nothing_left_out()
    ensures { (o : ObjectValue) → IsObject o → object_without o [] ≡ o }
{}
