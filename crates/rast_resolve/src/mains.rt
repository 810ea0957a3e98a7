// A law of what a program executes.
ghost use Rattle.std.specs.Prelude.{◌≡◌, ℕ, Ok, Some, slice_get};
ghost use Rattle.rast_ast.specs.declared.file.File.{File};
ghost use Rattle.rast_terms.specs.declared.program.Decl.{Decl};
ghost use Rattle.rast_resolve.specs.declared.program.Resolved.{Resolved};
ghost use Rattle.rast_resolve.specs.Programs.{resolved};

/// What the program of a file executes is one of its declarations, which has no parameter.
pub fn main_law()
    ensures { (f : File) (r : Resolved) (d : ℕ) → resolved f ≡ Ok r → r.program.main ≡ Some d → (x : Decl) × (slice_get r.program.decls d ≡ Some x) × (x.params ≡ 0) }
{}
