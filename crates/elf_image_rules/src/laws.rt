//! What holds of the rules themselves.
ghost use Rattle.std.specs.Prelude.{◌≡◌, ◌<◌, ◌⊎◌, ℕ, List, Option, None, Some};
ghost use Rattle.elf_field.specs.declared.ehdr.Ehdr.{Ehdr};
ghost use Rattle.elf_field.specs.declared.phdr.Phdr.{Phdr};
ghost use Rattle.elf_field.specs.declared.shdr.Shdr.{Shdr};
ghost use Rattle.elf_image_rules.specs.Rules.{IsFault, KeepsRecordRules, extents_of_file, image_rules, record_rules, extents, shared_fault};
ghost use Rattle.elf_extent.specs.Extent.{AreDisjoint, AreWithin, Doubly, IsLowest};
ghost use Rattle.elf_image_rules.specs.KeepsRules.{KeepsEachRecordRule, KeepsRules};
ghost use Rattle.elf_image_rules.specs.Rows.{FirstIn};
ghost use Rattle.elf_image_rules.specs.Tables.{name_table, program_header_count, section_header_count};

/// A file has one fault or none, and so have a header, entries and names by themselves: no other
/// rule and offset meets the definition, and it cannot be that no answer does.
pub fn one_fault()
    ensures file { (b : List ℕ) (x y : Option (ℕ × ℕ)) → IsFault b x → IsFault b y → x ≡ y }
    ensures tables { (len : ℕ) (h : Ehdr) (s : ℕ → Shdr) (g : ℕ → Phdr) (names : List ℕ) (x y : Option (ℕ × ℕ)) →
        FirstIn (image_rules len h s g names) x → FirstIn (image_rules len h s g names) y → x ≡ y }
    ensures some { (b : List ℕ) → ((x : Option (ℕ × ℕ)) → IsFault b x → ⊥) → ⊥ }
{}

/// No rule is broken exactly if each rule is kept, said as the standard says it, one fact for each: in
/// all rules, and in those that look at one record at a time or at the names, 1 to 32.
pub fn kept_rules()
    ensures kept { (len : ℕ) (h : Ehdr) (s : ℕ → Shdr) (g : ℕ → Phdr) (names : List ℕ) →
        FirstIn (image_rules len h s g names) None → KeepsRules len h s g names }
    ensures unbroken { (len : ℕ) (h : Ehdr) (s : ℕ → Shdr) (g : ℕ → Phdr) (names : List ℕ) →
        KeepsRules len h s g names → FirstIn (image_rules len h s g names) None }
    ensures records_kept { (len : ℕ) (h : Ehdr) (s : ℕ → Shdr) (g : ℕ → Phdr) (names : List ℕ) →
        FirstIn (record_rules len h s g names) None → KeepsEachRecordRule len h s g names }
    ensures records_unbroken { (len : ℕ) (h : Ehdr) (s : ℕ → Shdr) (g : ℕ → Phdr) (names : List ℕ) →
        KeepsEachRecordRule len h s g names → FirstIn (record_rules len h s g names) None }
{}

/// Where no rule is broken, each extent that is not empty lies in the file, no two share a byte, and
/// the section name string table is one of the sections, or none.
pub fn extents_of_image()
    ensures within { (len : ℕ) (h : Ehdr) (s : ℕ → Shdr) (g : ℕ → Phdr) (names : List ℕ) →
        FirstIn (image_rules len h s g names) None →
        AreWithin (extents h (section_header_count h (s 0)) (program_header_count h (s 0)) s) len }
    ensures disjoint { (len : ℕ) (h : Ehdr) (s : ℕ → Shdr) (g : ℕ → Phdr) (names : List ℕ) →
        FirstIn (image_rules len h s g names) None →
        AreDisjoint (extents h (section_header_count h (s 0)) (program_header_count h (s 0)) s) }
    ensures named { (len : ℕ) (h : Ehdr) (s : ℕ → Shdr) (g : ℕ → Phdr) (names : List ℕ) →
        FirstIn (image_rules len h s g names) None →
        (name_table h (s 0) ≡ 0) ⊎ (name_table h (s 0) < section_header_count h (s 0)) }
{}

/// Where a file keeps rules 1 to 32, the lowest byte that two of its extents hold is its fault, by
/// rule 33, and where there is none it has no fault: it can have one of no other rule.
pub fn fault_of_extents()
    ensures found { (b : List ℕ) (found : Option ℕ) → KeepsRecordRules b →
        IsLowest (Doubly (extents_of_file b)) found → IsFault b (shared_fault found) }
    ensures last { (b : List ℕ) (rule at : ℕ) → KeepsRecordRules b → IsFault b (Some (rule, at)) → rule ≡ 33 }
{}
