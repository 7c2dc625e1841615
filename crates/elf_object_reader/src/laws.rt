//! What holds of the objects that files denote, and of the rules on such files.
ghost use Rattle.std.specs.Prelude.{◌≡◌, ℕ, [], Option};
ghost use Rattle.elf_object_type.specs.Object.{ObjectValue};
ghost use Rattle.elf_object_reader.specs.Denotes.{Denotes};
ghost use Rattle.elf_object_reader.specs.FileRules.{file_rules};
ghost use Rattle.elf_image_rules.specs.Rows.{FirstIn};
ghost use Rattle.elf_table_symbols.specs.Sections.{Sections};

/// A file that is read as an object has one fault or none: no other rule and offset meets the definition, and it cannot be that no answer
/// does.
pub fn one_file_fault()
    ensures some { (f : Sections) → ((x : Option (ℕ × ℕ)) → FirstIn (file_rules f) x → ⊥) → ⊥ }
    ensures one { (f : Sections) (x y : Option (ℕ × ℕ)) → FirstIn (file_rules f) x → FirstIn (file_rules f) y → x ≡ y }
{}

/// A file denotes one object; one without section headers denotes the object without sections and symbols.
pub fn one_object()
    ensures one { (f : Sections) (o p : ObjectValue) → Denotes f o → Denotes f p → o ≡ p }
    ensures some { (f : Sections) → (o : ObjectValue) × Denotes f o }
    ensures no_sections { (f : Sections) (o : ObjectValue) → f.headers ≡ [] → Denotes f o → o.sections ≡ [] }
    ensures no_symbols { (f : Sections) (o : ObjectValue) → f.headers ≡ [] → Denotes f o → o.symbols ≡ [] }
{}
