//! What holds of the function of each tree, each law the contract of a function without code.

ghost use Rattle.c_emit.specs.Laws.{EmitAddsNoLoosePair, EmitDeclaresJustThese, EmitIsWellFormed, EmitKeepsCounts, EmitKeepsNames, EmitKeepsRuns};

/// The function of a tree has the same run as the tree, in every number of turns from every start.
pub fn emit_keeps_runs()
    ensures { EmitKeepsRuns }
{}

/// The function of a tree has as many loops, tests, calls and stores as the tree.
pub fn emit_keeps_counts()
    ensures { EmitKeepsCounts }
{}

/// The function of a tree reads and sets the names of the tree, under their new names.
pub fn emit_keeps_names()
    ensures { EmitKeepsNames }
{}

/// The function of a well-formed tree is well formed.
pub fn emit_is_well_formed()
    ensures { EmitIsWellFormed }
{}

/// The function of a tree declares just the locals of the tree, under their new names.
pub fn emit_declares_just_these()
    ensures { EmitDeclaresJustThese }
{}

/// The function of a tree without a loose pair has none.
pub fn emit_adds_no_loose_pair()
    ensures { EmitAddsNoLoosePair }
{}
