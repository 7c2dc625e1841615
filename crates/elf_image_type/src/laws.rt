//! Laws of images, each as the contract of a function that does nothing.
ghost use Rattle.std.specs.Prelude.{◌≡◌, ◌<◌, ◌+◌, ◌*◌, ℕ, List, None, length};
ghost use Rattle.elf_field.specs.Abi.{SHDR_SIZE};
ghost use Rattle.elf_field.specs.Bytes.{IsBytes};
ghost use Rattle.elf_field.specs.declared.ehdr.Ehdr.{Ehdr};
ghost use Rattle.elf_field.specs.declared.shdr.Shdr.{Shdr};
ghost use Rattle.elf_field.specs.Headers.{IsEhdrAt, IsPhdrAt, IsShdrAt};
ghost use Rattle.elf_image_rules.specs.Rules.{IsFault};
ghost use Rattle.elf_image_rules.specs.Tables.{order_of, phdr_offset, shdr_offset};
ghost use Rattle.elf_image_type.specs.WrittenFile.{FileContents, HasContents, IsWritable, WrittenPart, written, IsRelocatableFile};
ghost use Rattle.elf_image_type.specs.WrittenFile.{relocatable_bytes, relocatable_file};
ghost use Rattle.elf_image_outline.specs.Image.{ImageValue, IsImage, IsSoundImage, Stands, program_header_of, section_header_of};

/// An image is represented by one list of bytes, and by no other, be it with a fault or without.
#[tactic(auto, using(crate::proofs::Public::one_list))]
pub fn one_list()
    ensures { (v : ImageValue) (b c : List ℕ) → IsImage v b → Stands v c → b ≡ c }
{}

/// Each list of bytes that breaks no rule is an image; by [`one_image`] it is just one.
#[tactic(auto, using(crate::proofs::Public::some_image))]
pub fn some_image()
    ensures { (b : List ℕ) → IsBytes b → IsFault b None → (v : ImageValue) × IsImage v b }
{}

/// A list of bytes that breaks no rule is one image: no other value is represented by it.
#[tactic(auto, using(crate::proofs::Public::one_image))]
pub fn one_image()
    ensures { (v w : ImageValue) (b : List ℕ) → IsImage v b → IsImage w b → v ≡ w }
{}

/// Each field of an image's records is at its offset in the bytes that represent the image.
pub fn fields()
    ensures header { (v : ImageValue) (b : List ℕ) → IsImage v b → IsEhdrAt (order_of v.header.e_ident) b 0 v.header }
    ensures sections { (v : ImageValue) (b : List ℕ) (i : ℕ) → IsImage v b → i < length v.sections →
        IsShdrAt (order_of v.header.e_ident) b (shdr_offset v.header i) (section_header_of v.sections i) }
    ensures segments { (v : ImageValue) (b : List ℕ) (j : ℕ) → IsImage v b → j < length v.segments →
        IsPhdrAt (order_of v.header.e_ident) b (phdr_offset v.header j) (program_header_of v.segments j) }
{}

/// An image value is sound by itself exactly if there is a list of bytes that represents it, and that breaks no rule. So an edit that
/// keeps a value sound leaves an image.
#[tactic(auto, using(crate::proofs::Public::sound_stands, crate::proofs::Public::image_is_sound))]
pub fn sound()
    ensures stands { (v : ImageValue) → IsSoundImage v → (b : List ℕ) × IsImage v b }
    ensures only { (v : ImageValue) (b : List ℕ) → IsImage v b → IsSoundImage v }
{}

/// A file that is written from its parts, each after the one before it with zeros between: where its records keep the rules, the bytes
/// break none, and what they represent has these records and contents.
#[tactic(auto, using(crate::proofs::Public::written_is_bytes, crate::proofs::Public::written_accepted, crate::proofs::Public::written_read))]
pub fn written_file()
    ensures bytes { (f : FileContents) (places : List ℕ) (parts : List WrittenPart) → IsWritable f places parts →
        IsBytes (written places parts) }
    ensures accepted { (f : FileContents) (places : List ℕ) (parts : List WrittenPart) → IsWritable f places parts →
        IsFault (written places parts) None }
    ensures read { (f : FileContents) (places : List ℕ) (parts : List WrittenPart) → IsWritable f places parts →
        (v : ImageValue) → Stands v (written places parts) → HasContents v f }
{}

/// A relocatable file, made of a header, contents and a section header table, with no segments: its bytes break no rule, and what they
/// represent has these records and contents, however many sections it has.
pub fn written_relocatable_file()
    ensures bytes { (h : Ehdr) (ss : List Shdr) (cs : List (List ℕ)) (names : ℕ) → IsRelocatableFile h ss cs names →
        IsBytes (relocatable_bytes h ss cs names) }
    ensures len { (h : Ehdr) (ss : List Shdr) (cs : List (List ℕ)) (names : ℕ) → IsRelocatableFile h ss cs names →
        length (relocatable_bytes h ss cs names) ≡ h.e_shoff + SHDR_SIZE * (length ss + 1) }
    ensures accepted { (h : Ehdr) (ss : List Shdr) (cs : List (List ℕ)) (names : ℕ) → IsRelocatableFile h ss cs names →
        IsFault (relocatable_bytes h ss cs names) None }
    ensures read { (h : Ehdr) (ss : List Shdr) (cs : List (List ℕ)) (names : ℕ) → IsRelocatableFile h ss cs names →
        (v : ImageValue) → Stands v (relocatable_bytes h ss cs names) → HasContents v (relocatable_file h ss cs names) }
{}
