// The public calls on links and on the channels of a process, with answers worked out by hand.
ghost use Rattle.std.specs.Prelude.{◌≡◌, []};

use rast_items::{Link, Pid, Proc, Side, link_of};

// The link of the session of process 3, after so many messages.
fn third(index: u32) -> Link
    ensures { result.index ≡ index }
{
    Link {
        session: Pid(3),
        index,
    }
}

// Process 1 at node 0, at moment 7.
fn first() -> Proc
    ensures uses { result.uses ≡ [] }
    ensures values { result.values ≡ [] }
    ensures fresh { result.fresh ≡ 1 }
{
    Proc::bare(Pid(1), 0, Link::first(Pid(1)), 7)
}

#[test]
fn links_follow_each_other(rt: HostRuntime) {
    assert_eq!(rt; Link::first(Pid(3)), third(0));
    assert_eq!(rt; third(0).after(), third(1));
    assert!(rt; third(1).is(third(1)));
    assert!(rt; !third(1).is(third(2)));
    assert!(rt; Pid(2).is(Pid(2)));
    assert!(rt; !Pid(2).is(Pid(3)));
    assert!(rt; Side::Client.is(Side::Client));
    assert!(rt; !Side::Client.is(Side::Provider));
}

#[test]
fn channels_come_and_go(rt: HostRuntime) {
    let mut proc = first();
    proc.push_channel(third(0));
    proc.push_value(5);
    assert_eq!(rt; proc.own(), Link::first(Pid(1)));
    assert_eq!(rt; link_of(&proc, 1), Some(third(0)));
    assert_eq!(rt; proc.values(), [5].as_slice());
    proc.set_link(1, third(1));
    proc.set_own(third(4));
    assert_eq!(rt; proc.uses(), [(1, third(1))].as_slice());
    assert_eq!(rt; proc.own(), third(4));
    assert_eq!(rt; proc.take_channel(1), Some(third(1)));
    assert_eq!(rt; link_of(&proc, 1), None);
    assert_eq!(rt; proc.node, 0);
}
