// The items of a configuration, one after another.
ghost use Rattle.std.specs.Prelude.{◌≡◌};
ghost use Rattle.std.specs.Iterator.{YieldsFirstRef, item_count};

use rast_items::Item;
use std::marker::Model;

/// The items of a configuration that are left, in order. It takes no memory.
#[derive(Drop)]
pub struct Items<'a> {
    left: &'a [Item],
}

impl<'a> Model for Items<'a> {
    ghost use Rattle.std.specs.Prelude.{List};
    ghost use Rattle.rast_core.specs.Words.{Item};

    ghost Value = { List Item };

    ghost view = { λ i. i.left.now };
}

impl<'a> Items<'a> {
    /// All items of a list.
    pub(crate) fn of(left: &'a [Item]) -> Items<'a>
        ensures { result ≡ left.now }
    {
        Items { left }
    }
}

impl<'a> Iterator for Items<'a> {
    type Item = &'a Item;

    ghost next_gives = { YieldsFirstRef (λ items. items) };

    ghost remaining = { item_count (λ items. items) };

    fn next(&mut self) -> Option<&'a Item> {
        let (first, others) = self.left.split_first()?;
        self.left = others;
        Some(first)
    }
}
