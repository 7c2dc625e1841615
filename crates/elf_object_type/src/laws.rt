//! What holds of the rules of objects.
ghost use Rattle.std.specs.Prelude.{◌≡◌, ℕ, Option};
ghost use Rattle.elf_object_type.specs.ObjectRules.{KeepsObjectRules, IsObject, object_rules};
ghost use Rattle.elf_object_type.specs.Object.{ObjectValue};
ghost use Rattle.elf_image_rules.specs.Rows.{FirstIn};

/// Parts have one fault or none.
pub fn one_object_fault()
    ensures one { (o : ObjectValue) (x y : Option (ℕ × ℕ)) → FirstIn (object_rules o) x → FirstIn (object_rules o) y → x ≡ y }
    ensures some { (o : ObjectValue) → (x : Option (ℕ × ℕ)) × FirstIn (object_rules o) x }
{}

/// Parts break no rule exactly if each of the nine rules is kept, said as the standard says it, one fact for each.
pub fn kept_object_rules()
    ensures kept { (o : ObjectValue) → IsObject o → KeepsObjectRules o }
    ensures unbroken { (o : ObjectValue) → KeepsObjectRules o → IsObject o }
{}
