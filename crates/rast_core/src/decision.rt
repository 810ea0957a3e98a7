// What is to be done for one process.
use crate::origin::Origin;
use rast_items::{Event, Item, Link};

/// A change of the list of items, for the process at some place.
#[derive(Clone, Copy)]
pub enum Edit {
    /// The item stands in the process's place.
    Replace { item: Item },
    /// Both stand in the process's place, in this order.
    Two { first: Item, second: Item },
    /// The item stands in place `at`, and what stood in place `gone` is taken out.
    Merge { at: usize, item: Item, gone: usize },
}

/// What a process does next, and how the list changes.
#[derive(Clone, Copy)]
pub enum Decision {
    /// An event, with where the process comes from that it makes.
    Does {
        event: Event,
        edit: Edit,
        child: Option<Origin>,
    },
    /// It waits on a link.
    Waits(Link),
    /// It is halted at a value.
    Halted(u128),
}
