//! What holds for everything that a presenter prints.
ghost use Rattle.std.specs.Prelude.{◌≡◌, ◌↔◌, List, [], ◌∷◌, ◌++◌, map, Bool, IsTrue, true, not, ◌&&◌, ◌||◌};
ghost use Rattle.std.specs.List.{Any};
ghost use Rattle.audit_lock.specs.declared.resolving.Package.{Package};
ghost use Rattle.audit_report.specs.Blocks.{Block};
ghost use Rattle.audit_report.specs.Shown.{blocks_text, is_among, shown_after, tree_lines, was_shown};
ghost use Rattle.audit_report.specs.Symbols.{Names, Segments, is_kept, plain};
ghost use Rattle.audit_report.specs.declared.shown_trees.ShownTree.{ShownTree};

/// If trees are wanted, the trees that count as shown after some blocks are those from before and
/// those of the blocks; and a block after others has its tree if and only if no tree from before
/// and no earlier block is of its package's name, version and source. So over a presenter's life
/// each tree is shown once.
pub fn each_tree_stands_once()
    ensures shown { (shown : List ShownTree) (blocks : List Block) (p : Package)
        → was_shown (shown_after true shown blocks) p ≡ (was_shown shown p || is_among blocks p) }
    ensures text { (shown : List ShownTree) (blocks : List Block) (b : Block)
        → blocks_text true shown (blocks ++ b ∷ []) ≡ blocks_text true shown blocks
        ++ (b.lines ++ tree_lines
        (not (was_shown shown b.locked || is_among blocks b.locked)) b.tree) }
{}

/// Symbols keep exactly the paths that are one of them, or what is left of one if segments between
/// its first and its last are left out; of a path's segment only what is before its first `<`
/// counts.
pub fn kept_paths_are_symbols_with_gaps()
    ensures { (symbols : List Segments) (path : Segments)
        → IsTrue (is_kept symbols path) ↔ Any (Names (map plain path)) symbols }
{}
