//! Laws on files and the commands together: on which the commands agree, and which changes of the files of a link change nothing.
ghost use Rattle.std.specs.Prelude.{◌≡◌, ◌≢◌, ◌↔◌, ◌<◌, ℕ, suc, List, ◌∷◌, ◌++◌, length, map, None, Option, Some};
ghost use Rattle.elf_link_field.specs.declared.rule.RelocRule.{RelocRule};
ghost use Rattle.elf_link_files.specs.Files.{Discarded};
ghost use Rattle.elf_link_files.specs.Rows.{FirstAt};
ghost use Rattle.elf_link_files.specs.declared.fault.Options.{Options};
ghost use Rattle.elf_link_files.specs.declared.inputs.SymbolId.{SymbolId};
ghost use Rattle.elf_link_files.specs.declared.site.Site.{Site};
ghost use Rattle.elf_link_map.specs.LinkMap.{FirstOfLink, IsLinkMap, LinkMapValue, bound_in};
ghost use Rattle.elf_link_names.specs.Binds.{Binds, IsUnbound, input_rules};
ghost use Rattle.elf_link_names.specs.declared.name_rules.Choice.TheVariants.{Zero};
ghost use Rattle.elf_link_names.specs.declared.name_rules.Choice.{Choice};
ghost use Rattle.elf_link_relocate.specs.Fields.{applied_entry_rules};
ghost use Rattle.elf_object_type.specs.Object.{ObjectValue, SymbolValue};
ghost use Rattle.elf_tool_check.specs.Check.{CheckSays};
ghost use Rattle.elf_tool_check.specs.declared.calls.Refusal.TheVariants.{File};
ghost use Rattle.elf_tool_check.specs.declared.calls.Verdict.{Verdict};
ghost use Rattle.elf_tool_check.specs.declared.calls.Verdict.TheVariants.{Done, Refused};
ghost use Rattle.elf_tool_laws.specs.Agree.{but_length};
ghost use Rattle.elf_tool_laws.specs.Alike.{AreAlikeFiles, AreRewritten, SayTheSame};
ghost use Rattle.elf_tool_laws.specs.LeftOut.{AreLessSymbols, IsBindingAfter, IsUnneeded, LeavesOut, as_before};
ghost use Rattle.elf_tool_laws.specs.LeftOut.{inserted_at, section_by, with_bindings};
ghost use Rattle.elf_tool_laws.specs.Order.{AreOneBinding, AreOneRule, AreReordered, Compete, moved, swapped};
ghost use Rattle.elf_tool_link.specs.Definitions.{IsFirstDefinition};
ghost use Rattle.elf_tool_link.specs.Link.{FilesLink};
ghost use Rattle.elf_tool_link.specs.Map.{MapSays};
ghost use Rattle.elf_tool_link.specs.ObjectFiles.{AreObjectFiles, IsFirstRefused};
ghost use Rattle.elf_tool_link.specs.Places.{IsRecordAt, subject_of};
ghost use Rattle.elf_tool_link.specs.Verdicts.{IsLinkVerdict};
ghost use Rattle.elf_tool_link.specs.declared.places.RecordPlace.{RecordPlace};
ghost use Rattle.elf_tool_rewrite.specs.Rewrite.{RewriteSays};
ghost use Rattle.elf_tool_show.specs.Show.{ShowSays};

/// `check` and the other commands agree on a file. `show` has the verdict of `check`. What `check` refuses, `rewrite` refuses by the same
/// rule at the same offset, and so do `map` and `link`, if all files before it are objects ([`one_verdict`]). What `rewrite` and `link`
/// write, `check` accepts.
pub fn checked_files()
    ensures show { (b : List ℕ) (v w : Verdict) (s t : List ℕ) → CheckSays b v s → ShowSays b w t → v ≡ w }
    ensures rewrite { (b : List ℕ) (v w : Verdict) (s t : List ℕ) → v ≢ Done → CheckSays b v s → RewriteSays b w t → v ≡ w }
    ensures link { (opt : Options) (rules : Option (List RelocRule)) (front files : List (List ℕ)) (fs : List ObjectValue) (b s : List ℕ)
        (file rule at : ℕ) → AreObjectFiles front fs → CheckSays b (Refused (File file rule at)) s →
        IsLinkVerdict opt rules (front ++ b ∷ files) (Refused (File (length front) rule at)) }
    ensures rewritten { (b c s : List ℕ) (v : Verdict) → RewriteSays b Done c → CheckSays c v s → v ≡ Done }
    ensures linked { (opt : Options) (rules : List RelocRule) (files : List (List ℕ)) (b s : List ℕ) (v : Verdict) →
        FilesLink opt rules files Done b → CheckSays b v s → v ≡ Done }
{}

/// `map`, `link`, and the verdict on a link alone agree. There is one verdict on files: the first file that is refused; or else the first
/// rule of the link that is broken; or else that none is. `map` has it. With the same relocation rules `link` has it too, unless the
/// executable is too long for a file.
pub fn one_verdict()
    ensures one { (opt : Options) (rules : Option (List RelocRule)) (files : List (List ℕ)) (v w : Verdict) →
        IsLinkVerdict opt rules files v → IsLinkVerdict opt rules files w → v ≡ w }
    ensures map { (opt : Options) (rules : Option (List RelocRule)) (files : List (List ℕ)) (v : Verdict) (s : List ℕ) →
        MapSays opt rules files v s → IsLinkVerdict opt rules files v }
    ensures link { (opt : Options) (rules : List RelocRule) (files : List (List ℕ)) (v : Verdict) (s : List ℕ) →
        FilesLink opt rules files v s → IsLinkVerdict opt (Some rules) files (but_length v) }
    ensures both { (opt : Options) (rules : List RelocRule) (files : List (List ℕ)) (v w : Verdict) (s t : List ℕ) →
        MapSays opt (Some rules) files v s → FilesLink opt rules files w t → v ≡ but_length w }
{}

/// If a rule of the link refuses files, and the rule is about a section, a symbol or a relocation, the record of it is found in its file.
/// The rules are 3 to 9 and 12 to 16: the others are about no record. So a refusal that has a place in a file has one in what `rewrite`
/// writes for the file, maybe at another index and offset.
pub fn places_found()
    ensures link { (opt : Options) (files : List (List ℕ)) (fs : List ObjectValue) (x : ℕ × Site) (found : Option RecordPlace) →
        AreObjectFiles files fs → FirstOfLink opt fs (Some x) → subject_of x.0 ≢ None → IsRecordAt files (subject_of x.0) x.1 found →
        found ≢ None }
    ensures relocation { (rules : List RelocRule) (files : List (List ℕ)) (fs : List ObjectValue) (m : LinkMapValue) (x : ℕ × Site)
        (found : Option RecordPlace) → AreObjectFiles files fs → FirstAt (applied_entry_rules fs m rules) (Some x) →
        IsRecordAt files (subject_of x.0) x.1 found → found ≢ None }
{}

/// Files that are alike have the same link: at each position the two files have the same bytes, or they denote one object.
///
/// They are the same objects, or the same file is refused first, with the same rule and offset. For the same options and relocation rules
/// `map` writes the same text and `link` the same executable. If the link is refused, it is by the same rule of the link, in the same file,
/// at the same positions in its object. A name has the same first definition. What may differ is where these positions are in the bytes of
/// a file ([`places_found`]).
pub fn alike_files()
    ensures objects { (files others : List (List ℕ)) (fs : List ObjectValue) → AreAlikeFiles files others →
        AreObjectFiles files fs ↔ AreObjectFiles others fs }
    ensures refused { (files others : List (List ℕ)) (f rule at : ℕ) → AreAlikeFiles files others →
        IsFirstRefused files f rule at ↔ IsFirstRefused others f rule at }
    ensures map { (opt : Options) (rules : Option (List RelocRule)) (files others : List (List ℕ)) → AreAlikeFiles files others →
        SayTheSame (MapSays opt rules files) (MapSays opt rules others) }
    ensures link { (opt : Options) (rules : List RelocRule) (files others : List (List ℕ)) → AreAlikeFiles files others →
        SayTheSame (FilesLink opt rules files) (FilesLink opt rules others) }
    ensures verdict { (opt : Options) (rules : Option (List RelocRule)) (files others : List (List ℕ)) (said : Verdict) →
        AreAlikeFiles files others → IsLinkVerdict opt rules files said ↔ IsLinkVerdict opt rules others said }
    ensures definition { (files others : List (List ℕ)) (symbol : SymbolId) (found : Option SymbolId) → AreAlikeFiles files others →
        IsFirstDefinition files symbol found ↔ IsFirstDefinition others symbol found }
{}

/// `rewrite` changes no link. What it writes for a file may take the place of the file, for one file of a link, for some, or for all.
///
/// The files are alike ([`alike_files`]). So for the same options and relocation rules `map` and `link` write the same, byte for byte, or
/// refuse the same.
pub fn rewritten_files()
    ensures alike { (files rewritten : List (List ℕ)) → AreRewritten files rewritten → AreAlikeFiles files rewritten }
    ensures place { (front rest : List (List ℕ)) (b c : List ℕ) → RewriteSays b Done c →
        AreRewritten (front ++ b ∷ rest) (front ++ c ∷ rest) }
    ensures map { (opt : Options) (rules : Option (List RelocRule)) (files rewritten : List (List ℕ)) → AreRewritten files rewritten →
        SayTheSame (MapSays opt rules files) (MapSays opt rules rewritten) }
    ensures link { (opt : Options) (rules : List RelocRule) (files rewritten : List (List ℕ)) → AreRewritten files rewritten →
        SayTheSame (FilesLink opt rules files) (FilesLink opt rules rewritten) }
{}

/// The files of a link in another order bind each name to the same symbol, at the new position of its file. Of two files that compete the
/// first one has to stay the first: that is, if both have a COMDAT group of one signature, or both define one name, GLOBAL or WEAK.
///
/// Rule 8 refuses two GLOBAL definitions of a name. So in a link that is not refused only COMDAT groups and WEAK definitions compete, and a
/// file without them can be at any place.
///
/// The way back is such a change of order too. The same sections are discarded, and the same names are unbound. Of rules 1 to 9 none is
/// broken in both orders, or the first one that is broken is the same, maybe at another site. Two link maps, also with different options,
/// have the same binding of a name, except for the address of a common. Two neighbours that do not compete can change places.
pub fn other_order()
    ensures back { (fs gs : List ObjectValue) (to back : ℕ → ℕ) → AreReordered fs gs to back → AreReordered gs fs back to }
    ensures discarded { (fs gs : List ObjectValue) (to back : ℕ → ℕ) (f s : ℕ) → AreReordered fs gs to back → f < length fs →
        Discarded fs f s ↔ Discarded gs (to f) s }
    ensures bindings { (fs gs : List ObjectValue) (to back : ℕ → ℕ) (name : List ℕ) (c : Choice) → AreReordered fs gs to back →
        Binds fs name c → Binds gs name (moved to c) }
    ensures unbound { (fs gs : List ObjectValue) (to back : ℕ → ℕ) (name : List ℕ) → AreReordered fs gs to back →
        IsUnbound fs name ↔ IsUnbound gs name }
    ensures rule { (opt : Options) (fs gs : List ObjectValue) (to back : ℕ → ℕ) (x y : Option (ℕ × Site)) → AreReordered fs gs to back →
        FirstAt (input_rules opt fs) x → FirstAt (input_rules opt gs) y → AreOneRule x y }
    ensures maps { (opt other : Options) (fs gs : List ObjectValue) (to back : ℕ → ℕ) (m n : LinkMapValue) (name : List ℕ) →
        AreReordered fs gs to back → IsLinkMap opt fs m → IsLinkMap other gs n →
        AreOneBinding to (bound_in m.bindings name) (bound_in n.bindings name) }
    ensures neighbours { (front rest : List ObjectValue) (o p : ObjectValue) →
        ¬ Compete (front ++ o ∷ p ∷ rest) (length front) (suc (length front)) →
        AreReordered (front ++ o ∷ p ∷ rest) (front ++ p ∷ o ∷ rest) (swapped (length front)) (swapped (length front)) }
{}

/// Symbols that nothing needs may be left out of the objects of a link: those that are defined nowhere or local, and that no relocation and
/// no group of their object refers to. `strip --strip-unneeded` leaves out such symbols.
///
/// If none of rules 1 to 11 of the link is broken with these symbols, none is without them. Then the link map is the same, but for the
/// bindings of names, and `link` writes the same executable, byte for byte. Or it refuses the same relocation by the same rule of 12 to 16,
/// or the same executable as too long. Each name is bound to the same definition or common, at its new position. A name that was bound to
/// zero may have no symbol any more. The other way round such a symbol may be inserted at any position, if the references to later ones
/// count it.
pub fn left_out_symbols()
    ensures discarded { (fs gs : List ObjectValue) (at : ℕ → ℕ → ℕ) (f s : ℕ) → AreLessSymbols fs gs at →
        Discarded fs f s ↔ Discarded gs f s }
    ensures bindings { (fs gs : List ObjectValue) (at : ℕ → ℕ → ℕ) (name : List ℕ) (c : Choice) → AreLessSymbols fs gs at → c ≢ Zero →
        Binds gs name c → Binds fs name (as_before at c) }
    ensures rules { (opt : Options) (fs gs : List ObjectValue) (at : ℕ → ℕ → ℕ) (m : LinkMapValue) (x : Option (ℕ × Site)) →
        AreLessSymbols fs gs at → FirstOfLink opt fs None → IsLinkMap opt fs m → FirstOfLink opt gs x → x ≡ None }
    ensures names { (opt other : Options) (fs gs : List ObjectValue) (at : ℕ → ℕ → ℕ) (m n : LinkMapValue) (name : List ℕ) →
        AreLessSymbols fs gs at → IsLinkMap opt fs m → IsLinkMap other gs n →
        IsBindingAfter at (bound_in m.bindings name) (bound_in n.bindings name) }
    ensures map { (opt : Options) (fs gs : List ObjectValue) (at : ℕ → ℕ → ℕ) (m n : LinkMapValue) → AreLessSymbols fs gs at →
        IsLinkMap opt fs m → IsLinkMap opt gs n → m ≡ with_bindings n m.bindings }
    ensures link { (opt : Options) (rules : List RelocRule) (files others : List (List ℕ)) (fs gs : List ObjectValue) (at : ℕ → ℕ → ℕ)
        (v w : Verdict) (s t : List ℕ) → AreObjectFiles files fs → AreObjectFiles others gs → AreLessSymbols fs gs at →
        FirstOfLink opt fs None → FilesLink opt rules files v s → FilesLink opt rules others w t → (v ≡ w) × (s ≡ t) }
    ensures insert { (p : ObjectValue) (front rest : List SymbolValue) (s : SymbolValue) → p.symbols ≡ front ++ rest → IsUnneeded s →
        LeavesOut
        (record p { sections = map (section_by (inserted_at (length front))) p.sections; symbols = front ++ s ∷ rest }) p
        (inserted_at (length front)) }
{}
