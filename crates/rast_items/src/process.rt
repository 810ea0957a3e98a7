// Processes.
use crate::link::{Link, Pid};
use std::marker::Model;

/// A process: the node at which it stands, with its numbers and channels.
#[derive(Clone, Copy)]
pub struct Proc {
    /// Its number.
    pub pid: Pid,
    /// The node that it does next.
    pub node: u32,
    /// How many index variables it has.
    pub vars: u8,
    /// Their values; those past `vars` are 0.
    pub values: [u64; 16],
    /// How many channels it has.
    pub count: u8,
    /// Its channels with their links, in the order of their numbers, channel 0 first;
    /// those past `count` are channel 0 with the link of session 0 and index 0.
    pub links: [(u32, Link); 16],
    /// The number that the next bound channel gets.
    pub fresh: u32,
    /// Its moment, in ticks.
    pub moment: u128,
    /// Its potential.
    pub potential: u128,
    /// How many processes it has spawned.
    pub spawned: u32,
    /// How many events it has done.
    pub steps: u32,
}

impl Model for Proc {
    ghost use Rattle.std.specs.Prelude.{◌≡◌, ◌≤◌, ◌+◌, take, drop, length, replicate, ◌-◌, ◌++◌, ◌∷◌};
    ghost use Rattle.rast_items.specs.Process.{Process, no_link, own_of, uses_of, first_is_own};
    ghost use Rattle.rast_items.specs.Again.{fields_again};

    ghost Value = { Process };

    ghost view = { λ p. record { pid = p.pid; node = p.node; values = take p.vars p.values; own = own_of p.links; uses = uses_of p.count p.links; fresh = p.fresh; moment = p.moment; potential = p.potential; spawned = p.spawned; steps = p.steps } };

    ghost invariant = { λ p. (p.vars ≤ 16) × (length p.values ≡ 16) × (drop p.vars p.values ≡ replicate (16 - p.vars) 0) × (1 ≤ p.count) × (p.count ≤ 16) × (length p.links ≡ 16) × first_is_own p.links × (drop p.count p.links ≡ replicate (16 - p.count) no_link) };

    ghost inverse = { λ p. record { pid = p.pid; node = p.node; vars = length p.values; values = p.values ++ replicate (16 - length p.values) 0; count = length p.uses + 1; links = (0, p.own) ∷ (p.uses ++ replicate (15 - length p.uses) no_link); fresh = p.fresh; moment = p.moment; potential = p.potential; spawned = p.spawned; steps = p.steps } };

    ghost inverse_ok = { λ a h. fields_again a h };
}
