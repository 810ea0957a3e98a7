// How many variables are in scope in the tables of a program, and how many entries the tables have.
ghost use Rattle.std.specs.Prelude.{◌≡◌, Ok, length};
ghost use Rattle.rast_ast.specs.declared.file.File.{File};
ghost use Rattle.rast_resolve.specs.declared.program.Resolved.{Resolved};
ghost use Rattle.rast_resolve.specs.Programs.{resolved};
ghost use Rattle.rast_meant.specs.Limits.{IsLimited};

/// In the program that the names of a file resolve to at most 16 variables are in scope in each definition, declaration and
/// equation, and it has of each at most as many as the file has items.
pub fn limits_law()
    ensures { (f : File) (r : Resolved) → resolved f ≡ Ok r → IsLimited (length f.items) r.program }
{}
