// How many nodes terms have, and where the bodies of declarations begin.
ghost use Rattle.std.specs.Prelude.{◌≡◌, ◌<◌, replicate, length, map, flat_map, sum, IfOk};
ghost use Rattle.rast_resolve.specs.Names.{size_of, size_of_end, size_of_branch, starts_from, starts_of, all_put, body_sizes};

use crate::index::Index;
use crate::known::{narrow, plus};
use rast_ast::{Branch, End, Item, Proc};
use sqlite_items::Items;
use std::alloc::{AllocError, Global};

// How many nodes a term has.
#[cycle(size)]
fn term_size(t: &Proc) -> Result<u32, AllocError>
    ensures { IfOk result (λ n. n ≡ size_of t.now) }
{
    plus(narrow(t.steps.len())?, end_size(t.end.get())?)
}

#[cycle(size)]
fn end_size(end: &End) -> Result<u32, AllocError>
    ensures { IfOk result (λ n. n ≡ size_of_end end.now) }
{
    match end {
        End::Case { first, rest, .. } => {
            let below = plus(term_size(&first.body)?, branches_size(rest.as_slice())?)?;
            plus(1, below)
        }
        _ => Ok(1),
    }
}

#[cycle(size)]
fn branches_size(branches: &[Branch]) -> Result<u32, AllocError>
    ensures { IfOk result (λ n. n ≡ sum (map size_of_branch branches.now)) }
{
    let mut total = 0;
    for branch in branches {
        total = plus(total, term_size(&branch.body)?)?;
    }
    Ok(total)
}

// So many zeros.
fn zeros(alloc: Global, count: usize) -> Result<Items<u32>, AllocError>
    ensures { IfOk result (λ out. out ≡ replicate count 0) }
{
    Ok(Items::from_vec(vec![in alloc; 0u32; count]?))
}

// For each declaration the number of nodes of its body.
fn body_sizes(alloc: Global, decls: &Index, items: &[Item]) -> Result<Items<u32>, AllocError>
    ensures { IfOk result (λ out. out ≡ all_put (replicate (length decls.now) 0) (flat_map (body_sizes decls.now) items.now)) }
{
    let mut sizes = zeros(alloc, decls.len())?;
    for item in items {
        if let Item::Proc { name, body, .. } = item {
            let size = term_size(body)?;
            if let Some(place) = decls.place(name) {
                sizes.set(place, size);
            }
        }
    }
    Ok(sizes)
}

// Where parts of these sizes begin, one after another.
fn starts_of(alloc: Global, sizes: &[u32]) -> Result<Items<u32>, AllocError>
    ensures { IfOk result (λ out. out ≡ starts_from 0 sizes.now) }
{
    let mut starts = Items::new(alloc);
    let mut total = 0;
    for size in sizes {
        starts.push(total)?;
        total = plus(total, *size)?;
    }
    Ok(starts)
}

// For each declaration the number of the first node of its body.
pub(crate) fn body_starts(
    alloc: Global,
    decls: &Index,
    items: &[Item],
) -> Result<Items<u32>, AllocError>
    ensures { IfOk result (λ out. out ≡ starts_of decls.now items.now) }
{
    let sizes = body_sizes(alloc, decls, items)?;
    starts_of(alloc, sizes.as_slice())
}
