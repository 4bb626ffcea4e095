//! Laws of loading: each is a function that does nothing, and says what holds of all files.

ghost use Rattle.std.specs.Prelude.{◌≡◌, ◌↔◌, ℕ, List, Option, Result, Ok, Err};
ghost use Rattle.go_base.specs.Devices.{Tree};
ghost use Rattle.go_base.specs.declared.target.Target.{Target as TheTarget};
ghost use Rattle.go_load.specs.Answers.{IsProjectOf, HasBadModule};
ghost use Rattle.go_finding.specs.GoMod.{Contents, go_mod};
ghost use Rattle.go_finding.specs.GoModLines.{IsGoMod, IsBadGoMod, lines_of};
ghost use Rattle.go_finding.specs.Modules.{Broken, Governs, Module as TheModule};
ghost use Rattle.load_laws.specs.OneReading.{AreSameRead};
ghost use Rattle.go_finding.specs.Programs.{File, ReadsAll};
ghost use Rattle.go_finding.specs.Projects.{FileText, IsOriginAt, Origin, Project};
ghost use Rattle.go_finding.specs.declared.go_mod.Fault.{Fault as TheFault};

/// What is read of a go.mod is what its lines say, and it is refused for the first thing that is wrong with them.
pub fn go_mod_of_lines()
    ensures read { (text : List ℕ) (contents : Contents) → go_mod text ≡ Ok contents ↔ IsGoMod (lines_of text) contents }
    ensures refused { (text : List ℕ) (fault : TheFault) → go_mod text ≡ Err fault ↔ IsBadGoMod (lines_of text) fault }
{}

/// One go.mod counts for a directory, if any does, and says one thing; a target has one project, or its go.mod breaks
/// one rule first, and never both; and the files of a package are in one place.
pub fn one_project()
    ensures governs { (files : Tree) (dir : List ℕ) (a b : Option (Result TheModule Broken)) → Governs files dir a → Governs files dir b → a ≡ b }
    ensures project { (files : Tree) (target : TheTarget) (limit : ℕ) (a b : Project) → IsProjectOf files target limit a → IsProjectOf files target limit b → a ≡ b }
    ensures bad { (files : Tree) (target : TheTarget) (a b : Broken) → HasBadModule files target a → HasBadModule files target b → a ≡ b }
    ensures not_both { (files : Tree) (target : TheTarget) (limit : ℕ) (bad : Broken) (project : Project) → HasBadModule files target bad → IsProjectOf files target limit project → ⊥ }
    ensures origin { (project : Project) (index : ℕ) (path : List ℕ) (a b : Origin) → IsOriginAt project index path a → IsOriginAt project index path b → a ≡ b }
{}

/// Texts are read in one way: each has one tree, or breaks one rule first.
pub fn one_reading()
    ensures { (room : ℕ) (texts : List FileText) (a b : Result (List File) Broken) → ReadsAll room texts a → ReadsAll room texts b → AreSameRead a b }
{}
