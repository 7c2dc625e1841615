//! Laws of written objects, for the proofs of the crates above.
ghost use Rattle.std.specs.Prelude.{◌≡◌, ℕ, List, ◌≤◌, None, length};
ghost use Rattle.elf_object_layout.specs.Laid.{Laid};
ghost use Rattle.elf_object_file.specs.ObjectFile.{empty_object, empty_object_bytes, one_section, one_section_bytes, IsWrittenAs};
ghost use Rattle.elf_object_file.specs.ObjectFile.{written_sections};
ghost use Rattle.elf_object_type.specs.Object.{ObjectValue, ObjectFits};
ghost use Rattle.elf_field.specs.Bytes.{IsBytes};
ghost use Rattle.elf_image_outline.specs.Image.{ImageValue, IsImage, Stands};
ghost use Rattle.elf_object_reader.specs.Denotes.{Denotes};
ghost use Rattle.elf_object_reader.specs.FileRules.{file_rules};
ghost use Rattle.elf_object_type.specs.ObjectRules.{IsObject};
ghost use Rattle.elf_image_rules.specs.Rules.{MAX_LEN, IsFault};
ghost use Rattle.elf_image_rules.specs.Rows.{FirstIn};
ghost use Rattle.elf_table_symbols.specs.Sections.{sections_of};

// What holds of the canonical layout of an object.

/// Every object has a canonical layout, and no other list of bytes is its layout.
pub fn one_layout()
    ensures some { (o : ObjectValue) → (b : List ℕ) × Laid o b }
    ensures one { (o : ObjectValue) (b c : List ℕ) → Laid o b → Laid o c → b ≡ c }
{}

/// The definition of the canonical layout, at two objects: the empty one, and one of a single section.
pub fn laid_objects()
    ensures empty { Laid empty_object empty_object_bytes }
    ensures one { Laid one_section one_section_bytes }
{}

// What an object is written as is accepted, and read as that object.

/// What an object is written as breaks no rule of images; what it represents has the sections of the object's canonical layout, breaks no
/// rule of objects, and denotes the object. No other object is written so.
pub fn written_object()
    ensures bytes { (o : ObjectValue) (b : List ℕ) → IsWrittenAs o b → IsBytes b }
    ensures accepted { (o : ObjectValue) (b : List ℕ) → IsWrittenAs o b → IsFault b None }
    ensures read { (o : ObjectValue) (b : List ℕ) (written : IsWrittenAs o b) (v : ImageValue) → Stands v b →
        sections_of v ≡ written_sections o written.laid.places }
    ensures kept { (o : ObjectValue) (b : List ℕ) → IsWrittenAs o b → (v : ImageValue) → Stands v b →
        FirstIn (file_rules (sections_of v)) None }
    ensures denotes { (o : ObjectValue) (b : List ℕ) → IsWrittenAs o b → (v : ImageValue) → Stands v b → Denotes (sections_of v) o }
    ensures one { (o p : ObjectValue) (b : List ℕ) → IsWrittenAs o b → IsWrittenAs p b → o ≡ p }
{}

/// The object that a file denotes has nothing that doesn't fit a file: its canonical layout, where it is not too long, is what it
/// is written as.
pub fn denoted_object()
    ensures { (v : ImageValue) (b : List ℕ) (o : ObjectValue) (c : List ℕ) → IsImage v b → FirstIn (file_rules (sections_of v)) None →
        Denotes (sections_of v) o → Laid o c → length c ≤ MAX_LEN → IsWrittenAs o c }
{}

/// The object that a file denotes is one of the code's, where the file breaks no rule: it breaks none of the object rules, and all that it
/// has fits a file.
pub fn sound_object()
    ensures { (v : ImageValue) (b : List ℕ) (o : ObjectValue) → IsImage v b → FirstIn (file_rules (sections_of v)) None →
        Denotes (sections_of v) o → IsObject o × ObjectFits o }
{}
