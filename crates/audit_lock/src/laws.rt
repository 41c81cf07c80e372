//! What holds for every reading and for every rendering.
ghost use Rattle.std.specs.Prelude.{◌≡◌, ◌<◌, ◌↔◌, List, ◌∷◌, ◌++◌, ℕ, length, Option, None, Some, Ok, Err};
ghost use Rattle.toml.specs.Data.{Data};
ghost use Rattle.audit_lock.specs.declared.listed.ListedPackage.{ListedPackage};
ghost use Rattle.audit_lock.specs.declared.listed.LockRule.{LockRule};
ghost use Rattle.audit_lock.specs.declared.listed.LockRule.TheVariants.{Names};
ghost use Rattle.audit_lock.specs.declared.lockfiles.LockfileFault.TheVariants.{Rule};
ghost use Rattle.audit_lock.specs.declared.resolving.Package.{Package};
ghost use Rattle.audit_lock.specs.InOrder.{AreListed, ArePlaced, array_of, packages_at};
ghost use Rattle.audit_lock.specs.Listed.{listed_of};
ghost use Rattle.audit_lock.specs.Locked.{listed_from, resolve_from};
ghost use Rattle.audit_lock.specs.Naming.{each_place};
ghost use Rattle.audit_lock.specs.Shape.{IsTree};
ghost use Rattle.audit_lock.specs.Rendering.{Line, lines_of};

/// If each value of an array is a package, the array reads to these packages; else the fault names
/// the place of the first value that is none, and the rule that it breaks. If each dependency names
/// a package, packages get their dependencies' places; else the fault names the first that fails.
pub fn first_broken_package_is_named()
    ensures listed { (ds : List Data) (ps : List ListedPackage)
        → AreListed ds ps → listed_from 0 (array_of ds) ≡ Ok ps }
    ensures broken { (front back : List Data) (d : Data) (ps : List ListedPackage) (r : LockRule)
        → AreListed front ps → listed_of d ≡ Err r
        → listed_from 0 (array_of (front ++ d ∷ back)) ≡ Err (Rule (Some (length front)) r) }
    ensures placed { (place : List ℕ → Option ℕ) (ps : List ListedPackage) (ats : List (List ℕ))
        → ArePlaced place ps ats → resolve_from place 0 ps ≡ Ok (packages_at ps ats) }
    ensures unnamed { (place : List ℕ → Option ℕ) (front back : List ListedPackage)
        (p : ListedPackage) (ats : List (List ℕ))
        → ArePlaced place front ats → each_place place p.dependencies ≡ None
        → resolve_from place 0 (front ++ p ∷ back) ≡ Err (Rule (Some (length front)) Names) }
{}

/// Only the lines of a rendering have the shape of the tree.
pub fn lines_are_the_tree()
    ensures { (packages : List Package) (place : ℕ) (lines : List Line) → place < length packages
        → IsTree packages place lines ↔ (lines ≡ lines_of packages place) }
{}
