// Programs that the names of a file of the grammar resolve to are well made.
ghost use Rattle.std.specs.Prelude.{◌≡◌, true, Ok};
ghost use Rattle.rast_ast.specs.Files.{file_fits};
ghost use Rattle.rast_ast.specs.declared.file.File.{File};
ghost use Rattle.rast_made.specs.WellMade.{IsWellMade};
ghost use Rattle.rast_resolve.specs.declared.program.Resolved.{Resolved};
ghost use Rattle.rast_resolve.specs.Programs.{resolved};

/// The program of a file that the grammar has, and in which each name stands for something, is well made: all numbers are in range,
/// variables and channels in scope, divisors at least 1, names of types have their arguments, no choice has a label twice, what is
/// executed has no parameter and uses no channel, children come after their parents, each node has one place, and what is printed
/// has its names.
pub fn meant_law()
    ensures { (f : File) (r : Resolved) → file_fits f ≡ true → resolved f ≡ Ok r → IsWellMade r.program }
{}
