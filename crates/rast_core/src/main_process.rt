// The process with which a run begins.
ghost use Rattle.std.specs.Prelude.{◌≡◌, ◌<◌, ◌^◌, [], ℕ, pos};
ghost use Rattle.rast_items.specs.Deeds.{process_at};
ghost use Rattle.rast_core.specs.Promises.{CanStart, BeginsWith, IsNatural};

use rast_items::{Link, Pid, Proc};
use rast_terms::{Decl, Program};

/// Main's process, with its declared potential.
pub(crate) fn begin(program: &Program) -> Proc
    requires { CanStart program.now }
    ensures begins { BeginsWith program.now result }
    ensures small { result.potential < 2 ^ 32 }
{
    match program.main {
        Some(number) => match program.decls.get(number as usize) {
            Some(decl) => body_of(decl),
            None => unreachable!(),
        },
        None => unreachable!(),
    }
}

/// A process at a declaration's body, which has the number 0 and the declared potential.
fn body_of(decl: &Decl) -> Proc
    requires { IsNatural decl.now.potential.constant }
    ensures process { (q : ℕ) → decl.now.potential.constant ≡ pos q → result ≡ process_at 0 decl.now [] [] 0 q }
    ensures small { result.potential < 2 ^ 32 }
{
    let own = Link::first(Pid(0));
    let mut proc = Proc::bare(Pid(0), decl.body, own, 0);
    let potential = &decl.potential;
    proc.potential = potential.constant as u128;
    proc
}
