// Channels with their links, as entries of an array.
ghost use Rattle.std.specs.Prelude.{◌≡◌, ◌<◌, ◌++◌, ◌∷◌, [], length, remove, MatchOption, None};
ghost use Rattle.rast_index.specs.Keys.{find_key, IsPlace};
ghost use Rattle.rast_items.specs.Process.{no_link};

use crate::link::{Link, Pid};

/// What stands in the place of a channel that a process doesn't have.
pub(crate) const NO_LINK: (u32, Link) = (
    0,
    Link {
        session: Pid(0),
        index: 0,
    },
);

/// The place of a channel's first entry.
pub(crate) fn place_of(entries: &[(u32, Link)], channel: u32) -> Option<usize>
    ensures { MatchOption result (find_key channel entries.now ≡ None) (λ i. IsPlace channel entries.now i) }
{
    for i in 0..entries.len() {
        if entries[i].0 == channel {
            return Some(i);
        }
    }
    None
}

/// Takes an entry out, moves the later ones down, and fills the last place.
pub(crate) fn close_gap(entries: &mut [(u32, Link)], place: usize)
    requires { place < length entries.old }
    ensures { entries.new ≡ remove entries.old place ++ no_link ∷ [] }
{
    let last = entries.len() - 1;
    entries[place..].rotate_left(1);
    entries[last] = NO_LINK;
}
