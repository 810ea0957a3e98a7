// Where items lie.
ghost use Rattle.std.specs.Prelude.{◌≡◌};
ghost use Rattle.rast_core.specs.Places.{within};

/// Where an item of a configuration lies, which `first` and `after` give.
/// A step may move what lies there.
#[derive(Clone, Copy, Debug)]
pub struct Handle {
    pub(crate) place: usize,
}

impl Handle {
    /// The handle of a place, if it is one of so many.
    pub(crate) fn within(place: usize, length: usize) -> Option<Handle>
        ensures { result ≡ within place length }
    {
        if place < length {
            Some(Handle { place })
        } else {
            None
        }
    }
}
