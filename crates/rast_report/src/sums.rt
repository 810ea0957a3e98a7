// The sums of a report.
ghost use Rattle.std.specs.Prelude.{◌≡◌, ◌<◌, ◌^◌};
ghost use Rattle.rast_items.specs.Run.{work, work_by, time, moment_of};

use rast_items::Event;

// The work of an event.
fn work_by(event: &Event) -> u128
    ensures { result ≡ work_by event.now }
{
    match event {
        Event::Work { amount, .. } => *amount,
        _ => 0,
    }
}

// The moment of an event.
pub(crate) fn moment_of(event: &Event) -> u128
    ensures { result ≡ moment_of event.now }
{
    match event {
        Event::Send { moment, .. } => *moment,
        Event::Take { moment, .. } => *moment,
        Event::Move { moment, .. } => *moment,
        Event::Spawn { moment, .. } => *moment,
        Event::Call { moment, .. } => *moment,
        Event::Work { moment, .. } => *moment,
        Event::Delay { moment, .. } => *moment,
    }
}

// The work of a run.
pub(crate) fn work(history: &[Event]) -> u128
    requires { work history.now < 2 ^ 128 }
    ensures { result ≡ work history.now }
{
    let mut sum: u128 = 0;
    for event in history {
        sum += work_by(event);
    }
    sum
}

// The greatest moment of an event, or 0.
pub(crate) fn time(history: &[Event]) -> u128
    ensures { result ≡ time history.now }
{
    let mut greatest = 0;
    for event in history {
        greatest = moment_of(event).max(greatest);
    }
    greatest
}
