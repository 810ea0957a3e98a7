// Changes of the list of items.
ghost use Rattle.std.specs.Prelude.{◌≡◌, ◌<◌, ◌≤◌, ◌+◌, ◌++◌, option_to_list, vec_len, vec_capacity};
ghost use Rattle.rast_core.specs.Edits.{edited, IsApt};

use crate::decision::Edit;
use crate::origin::Origin;
use rast_items::Item;

/// Does an edit for the process at a place, where there is room for one item more. It takes no memory.
pub(crate) fn apply(items: &mut Vec<Item>, place: usize, edit: Edit)
    requires place { place < vec_len items.old }
    requires apt { IsApt edit items.old.items }
    requires room { vec_len items.old < vec_capacity items.old }
    ensures items { items.new.items ≡ edited edit items.old.items place }
    ensures length { vec_len items.new ≤ vec_len items.old + 1 }
    ensures capacity { vec_capacity items.old ≤ vec_capacity items.new }
{
    match edit {
        Edit::Replace { item } => items[place] = item,
        Edit::Two { first, second } => {
            items[place] = first;
            items.insert(place + 1, second).unwrap();
        }
        Edit::Merge { at, item, gone } => {
            items[at] = item;
            let _gone = items.remove(gone);
        }
    }
}

/// Notes where a child comes from, where there is room for it. It takes no memory.
pub(crate) fn note(origins: &mut Vec<Origin>, child: Option<Origin>)
    requires { vec_len origins.old < vec_capacity origins.old }
    ensures items { origins.new.items ≡ origins.old.items ++ option_to_list child }
    ensures length { vec_len origins.new ≤ vec_len origins.old + 1 }
    ensures capacity { vec_capacity origins.old ≤ vec_capacity origins.new }
{
    if let Some(origin) = child {
        origins.push(origin).unwrap();
    }
}
