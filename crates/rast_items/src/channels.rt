// The channels and index values of a process.
ghost use Rattle.std.specs.Prelude.{◌≡◌, ◌+◌, ◌<◌, ◌^◌, ◌++◌, ◌∷◌, [], length, MatchOption, None, Some};
ghost use Rattle.rast_index.specs.Keys.{find_key, drop_key};
ghost use Rattle.rast_items.specs.Deeds.{link_of, with_link, with_channel, less_channel, at_node};

use crate::entries::{NO_LINK, close_gap, place_of};
use crate::link::Link;
use crate::process::Proc;

/// The link at which a process has a channel, if it has that channel.
pub fn link_of(proc: &Proc, channel: u32) -> Option<Link>
    ensures { result ≡ link_of proc.now channel }
{
    if channel == 0 {
        return Some(proc.own());
    }
    let uses = proc.uses();
    match place_of(uses, channel) {
        Some(place) => Some(uses[place].1),
        None => None,
    }
}

impl Proc {
    /// The link of the channel that it provides.
    pub fn own(&self) -> Link
        ensures { result ≡ self.now.own }
    {
        self.links[0].1
    }

    /// The channels that it uses with their links.
    pub fn uses(&self) -> &[(u32, Link)]
        ensures { result.now ≡ self.now.uses }
    {
        &self.links[1..self.count as usize]
    }

    /// The values of its index variables.
    pub fn values(&self) -> &[u64]
        ensures { result.now ≡ self.now.values }
    {
        &self.values[..self.vars as usize]
    }

    /// Puts the provided channel at another link.
    pub fn set_own(&mut self, link: Link)
        ensures { self.new ≡ record self.old { own = link } }
    {
        self.links[0] = (0, link);
    }

    /// Puts a channel at another link; nothing changes where it has no such channel.
    pub fn set_link(&mut self, channel: u32, link: Link)
        ensures { self.new ≡ with_link self.old channel link }
    {
        if channel == 0 {
            self.set_own(link);
        } else if let Some(place) = place_of(self.uses(), channel) {
            self.links[place + 1] = (channel, link);
        }
    }

    /// One more used channel at this link, at the next free number.
    pub fn push_channel(&mut self, link: Link)
        requires room { length self.old.uses < 15 }
        requires number { self.old.fresh + 1 < 2 ^ 32 }
        ensures { self.new ≡ with_channel self.old link }
    {
        self.links[self.count as usize] = (self.fresh, link);
        self.count += 1;
        self.fresh += 1;
    }

    /// Gives a used channel away: its link, if it has that channel.
    pub fn take_channel(&mut self, channel: u32) -> Option<Link>
        ensures link { result ≡ find_key channel self.old.uses }
        ensures rest { self.new ≡ record self.old { uses = drop_key channel self.old.uses } }
    {
        let uses = self.uses();
        let place = place_of(uses, channel)?;
        let link = uses[place].1;
        close_gap(&mut self.links, place + 1);
        self.count -= 1;
        Some(link)
    }

    /// One more index variable with this value.
    pub fn push_value(&mut self, value: u64)
        requires { length self.old.values < 16 }
        ensures { self.new ≡ record self.old { values = self.old.values ++ value ∷ [] } }
    {
        self.values[self.vars as usize] = value;
        self.vars += 1;
    }

    /// Goes on at a node after an event.
    pub fn go_to(&mut self, node: u32)
        requires { self.old.steps + 1 < 2 ^ 32 }
        ensures { self.new ≡ at_node self.old node }
    {
        self.node = node;
        self.steps += 1;
    }
}
