// Processes' numbers, links and directions.
ghost use Rattle.std.specs.Prelude.{◌≡◌};

/// The number of a process: main is 0, and the k-th spawn of a run makes k.
#[derive(Clone, Copy, Debug, PartialEq, Eq)]
pub struct Pid(pub u32);

/// A place in a session: the session of process `session`, after so many messages.
#[derive(Clone, Copy, Debug, PartialEq, Eq)]
pub struct Link {
    /// The process with which the session began.
    pub session: Pid,
    /// How many messages of the session come before.
    pub index: u32,
}

/// The end of a session that a message goes to.
#[derive(Clone, Copy, Debug, PartialEq, Eq)]
pub enum Side {
    /// Toward the client.
    Client,
    /// Toward the provider.
    Provider,
}

impl Pid {
    ghost use Rattle.rast_items.specs.Links.{same_pid};

    /// Whether both are the same process.
    pub fn is(self, other: Pid) -> bool
        ensures { result ≡ same_pid self other }
    {
        self.0 == other.0
    }
}

impl Link {
    ghost use Rattle.std.specs.Prelude.{◌+◌, ◌<◌, ◌^◌};
    ghost use Rattle.rast_items.specs.Links.{same_link, link_at, after_link};

    /// The first link of the session that begins with this process.
    pub fn first(session: Pid) -> Link
        ensures { result ≡ link_at session.0 0 }
    {
        Link { session, index: 0 }
    }

    /// Whether both are the same link.
    pub fn is(self, other: Link) -> bool
        ensures { result ≡ same_link self other }
    {
        self.session.is(other.session) && self.index == other.index
    }

    /// The link after one more message.
    pub fn after(self) -> Link
        requires { self.index + 1 < 2 ^ 32 }
        ensures { result ≡ after_link self }
    {
        Link {
            session: self.session,
            index: self.index + 1,
        }
    }
}

impl Side {
    ghost use Rattle.rast_items.specs.Links.{same_side};

    /// Whether both are the same side.
    pub fn is(self, other: Side) -> bool
        ensures { result ≡ same_side self other }
    {
        match (self, other) {
            (Side::Client, Side::Client) | (Side::Provider, Side::Provider) => true,
            _ => false,
        }
    }
}
