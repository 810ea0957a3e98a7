// The channels of a judgement and their types.
ghost use Rattle.std.specs.Prelude.{◌≡◌, ◌==◌, MatchOption, None, Some};
ghost use Rattle.std.specs.List.{list_any};
ghost use Rattle.rast_index.specs.Keys.{find_key, IsPlace};
ghost use Rattle.rast_rules.specs.Rules.{used_type, type_of, is_provided};
ghost use Rattle.rast_rules.specs.Trail.{first_channel, left};

use crate::judgement::Judgement;
use rast_types::Ty;

impl Judgement {
    /// Whether it is the channel that is provided.
    pub(crate) fn is_provided(&self, channel: u32) -> bool
        ensures { result ≡ is_provided self.now channel }
    {
        channel == self.gives.0
    }

    /// The type of a used channel.
    pub(crate) fn used_type(&self, channel: u32) -> Option<&Ty>
        ensures { MatchOption result (used_type self.now channel ≡ None) (λ a. used_type self.now channel ≡ Some a.now) }
    {
        for (used, ty) in self.uses.as_slice() {
            if *used == channel {
                return Some(ty);
            }
        }
        None
    }

    /// The type of a channel, which is provided or used.
    pub(crate) fn type_of(&self, channel: u32) -> Option<&Ty>
        ensures { MatchOption result (type_of self.now channel ≡ None) (λ a. type_of self.now channel ≡ Some a.now) }
    {
        if self.is_provided(channel) {
            return Some(&self.gives.1);
        }
        self.used_type(channel)
    }
}

/// Whether a channel stands in a list.
pub(crate) fn is_among(channels: &[u32], channel: u32) -> bool
    ensures { result ≡ list_any (λ y. y == channel) channels.now }
{
    for other in channels {
        if *other == channel {
            return true;
        }
    }
    false
}

/// The place of a channel's first entry.
pub(crate) fn place_of(entries: &[(u32, Ty)], channel: u32) -> Option<usize>
    ensures { MatchOption result (find_key channel entries.now ≡ None) (λ i. IsPlace channel entries.now i) }
{
    for i in 0..entries.len() {
        if entries[i].0 == channel {
            return Some(i);
        }
    }
    None
}

/// The first used channel that is not among these.
pub(crate) fn first_left(uses: &[(u32, Ty)], gone: &[u32]) -> Option<u32>
    ensures { result ≡ first_channel (left gone.now uses.now) }
{
    for (channel, _) in uses {
        if !is_among(gone, *channel) {
            return Some(*channel);
        }
    }
    None
}
