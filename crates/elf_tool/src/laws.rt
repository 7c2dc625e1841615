//! The laws on commands: each has one verdict and one text for its input. The executable of files is an image that loads the memory of
//! their link, and a file of relocation rules gives at most one list of them or one bad line. The commands agree ([`checked_files`],
//! [`one_verdict`]), and `rewrite` changes no link ([`rewritten_files`]). Each is the contract of a function that does nothing, and the
//! program does without them. Begin with [`one_check`].
ghost use Rattle.std.specs.Prelude.{◌≡◌, ◌<◌, ◌^◌, ℕ, List, Option};
ghost use Rattle.elf_field.specs.Bytes.{IsBytes};
ghost use Rattle.elf_exec.specs.Executable.{ExecFits, LoadsLink};
ghost use Rattle.elf_link_field.specs.declared.rule.RelocRule.{RelocRule};
ghost use Rattle.elf_link_files.specs.declared.fault.Options.{Options};
ghost use Rattle.elf_link_map.specs.LinkMap.{LinkMapValue};
ghost use Rattle.elf_object_type.specs.Object.{ObjectValue};
ghost use Rattle.elf_tool.specs.Laws.{IsSoundFileLink, AreFilesOfBytes, SaysSome};
ghost use Rattle.elf_tool_check.specs.Check.{CheckSays};
ghost use Rattle.elf_tool_check.specs.Engine.{SaysOne};
ghost use Rattle.elf_tool_link.specs.Link.{FilesLink};
ghost use Rattle.elf_tool_link.specs.Map.{MapSays};
ghost use Rattle.elf_tool_rewrite.specs.Rewrite.{RewriteSays};
ghost use Rattle.elf_tool_rule_file.specs.RuleFile.{AreRules, IsBadLine};
ghost use Rattle.elf_tool_show.specs.Show.{ShowSays};

pub use elf_tool_laws::{
    alike_files, checked_files, left_out_symbols, one_verdict, other_order, places_found,
    rewritten_files,
};

/// `check` has at most one verdict and one text for the bytes of a file, and cannot be without one.
pub fn one_check()
    ensures some { (b : List ℕ) → SaysSome (CheckSays b) }
    ensures one { (b : List ℕ) → SaysOne (CheckSays b) }
{}

/// `show` has at most one verdict and one text for the bytes of a file, and cannot be without one.
pub fn one_show()
    ensures some { (b : List ℕ) → IsBytes b → SaysSome (ShowSays b) }
    ensures one { (b : List ℕ) → SaysOne (ShowSays b) }
{}

/// `rewrite` has at most one verdict and one text for the bytes of a file, and cannot be without one.
pub fn one_rewrite()
    ensures some { (b : List ℕ) → IsBytes b → SaysSome (RewriteSays b) }
    ensures one { (b : List ℕ) → SaysOne (RewriteSays b) }
{}

/// `map` has at most one verdict and one text for its options, the relocation rules, if any, and the bytes of its files, and cannot be
/// without one.
pub fn one_map()
    ensures some { (opt : Options) (rules : Option (List RelocRule)) (files : List (List ℕ)) → AreFilesOfBytes files →
        SaysSome (MapSays opt rules files) }
    ensures one { (opt : Options) (rules : Option (List RelocRule)) (files : List (List ℕ)) → SaysOne (MapSays opt rules files) }
{}

/// `link` has at most one verdict and one text, an executable or nothing, for its options, the relocation rules and the bytes of its files.
/// It cannot be without one if the page fits the code's type.
pub fn one_link()
    ensures some { (opt : Options) (rules : List RelocRule) (files : List (List ℕ)) → opt.page < 2 ^ 64 → AreFilesOfBytes files →
        SaysSome (FilesLink opt rules files) }
    ensures one { (opt : Options) (rules : List RelocRule) (files : List (List ℕ)) → SaysOne (FilesLink opt rules files) }
{}

/// From the bytes of the input files to memory. If files are images that denote objects, and no rule of the link is broken for these, the
/// options and the relocation rules, the executable of the link is an image. Its entry is the value of the entry symbol, or 0 if none is
/// named. Its loadable segments give an address a byte exactly if the memory of the link has that byte there. It is their only executable.
pub fn executable()
    ensures { (opt : Options) (rules : List RelocRule) (files : List (List ℕ)) (fs : List ObjectValue) (m : LinkMapValue) (b : List ℕ) →
        IsSoundFileLink opt rules files fs m → ExecFits fs m rules b → LoadsLink fs m rules b }
{}

/// Bytes are the lines of at most one list of relocation rules, and at most one of their lines is reported as bad. If they are the lines of
/// a list, none is.
pub fn one_rule_file()
    ensures rules { (b : List ℕ) (rs ss : List RelocRule) → AreRules b rs → AreRules b ss → rs ≡ ss }
    ensures line { (b : List ℕ) (m n : ℕ) → IsBadLine b m → IsBadLine b n → m ≡ n }
    ensures apart { (b : List ℕ) (rs : List RelocRule) (n : ℕ) → AreRules b rs → IsBadLine b n → ⊥ }
{}
