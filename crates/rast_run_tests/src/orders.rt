// Runs in pseudo-random orders. What is sent and taken on each session is counted here, by the events
// alone.
ghost use Rattle.rast_rules.specs.Plan.{IsForest};
ghost use Rattle.rast_rules.specs.Rules.{IsAccepted};
ghost use Rattle.rast_run_tests.specs.Runnable.{IsRunnable};

use crate::replay::program_of;
use crate::texts::{COINS, COUNTER, NUMBERS, SINK, TICKS};
use rast_core::{Config, Next, Outcome};
use rast_items::{Body, Event, Link, Pid};
use rast_rules::plan;
use rast_terms::Program;
use std::alloc::{AllocError, Global};
use std::test::Fail;

// Forwards one behind the other, toward the client and toward the provider.
const CHAINS: &str = "explicit
type nat = +{z : 1, s : nat}
type sink = &{s : sink, z : 1}
decl two : . |- (x : nat)
proc x <- two = x.s ; x.s ; x.z ; close x
decl fw : . |- (x : nat)
proc x <- fw = y <- two ; x <-> y
decl down : . |- (x : nat)
proc x <- down = y <- fw ; x <-> y
decl eat : . |- (x : sink)
proc x <- eat = case x ( s => x <- eat | z => close x )
decl relay : . |- (x : sink)
proc x <- relay = y <- eat ; x <-> y
decl again : . |- (x : sink)
proc x <- again = y <- relay ; x <-> y
decl up : . |- (u : 1)
proc u <- up = x <- again ; x.s ; x.z ; wait x ; close u
";

// Channels that are sent, to the client and to the provider.
const CHANNELS: &str = "explicit
type nat = +{z : 1, s : nat}
type sum = &{add : nat -o sum, done : nat}
decl two : . |- (x : nat)
proc x <- two = x.s ; x.s ; x.z ; close x
decl join : (a : nat) (b : nat) |- (x : nat)
proc x <- join a b = case a ( s => x.s ; x <- join b a | z => wait a ; x <-> b )
decl give : . |- (x : nat * 1)
proc x <- give = y <- two ; send x y ; close x
decl open : (p : nat * 1) |- (x : nat)
proc x <- open p = y <- recv p ; wait p ; x <-> y
decl pair : . |- (x : nat)
proc x <- pair = p <- give ; x <- open p
decl same : . |- (f : nat -o nat)
proc f <- same = y <- recv f ; f <-> y
decl apply : . |- (x : nat)
proc x <- apply = f <- same ; a <- two ; send f a ; x <-> f
decl sum : (t : nat) |- (x : sum)
proc x <- sum t = case x ( add => y <- recv x ; u <- join t y ; x <- sum u | done => x <-> t )
decl total : . |- (x : nat)
proc x <- total = t <- two ; a <- sum t ; b <- two ; a.add ; send a b ; a.done ; x <-> a
";

// Values that are sent.
const VALUES: &str = "explicit
type num = ?n. 1
decl one : . |- (x : num)
proc x <- one = send x {1} ; close x
decl next : (y : num) |- (x : num)
proc x <- next y = {n} <- recv y ; send x {n + 1} ; wait y ; close x
decl two : . |- (x : num)
proc x <- two = y <- one ; z <- next y ; x <-> z
";

// A message as it was sent or taken.
#[derive(Clone, Copy, PartialEq, Eq)]
struct Part {
    link: Link,
    body: Body,
}

fn sent_by(event: &Event) -> Option<Part> {
    match event {
        Event::Send { link, body, .. } => Some(Part {
            link: *link,
            body: *body,
        }),
        Event::Move { to, body, .. } => Some(Part {
            link: *to,
            body: *body,
        }),
        _ => None,
    }
}

fn taken_by(event: &Event) -> Option<Part> {
    match event {
        Event::Take { link, body, .. } => Some(Part {
            link: *link,
            body: *body,
        }),
        Event::Move { from, body, .. } => Some(Part {
            link: *from,
            body: *body,
        }),
        _ => None,
    }
}

// What was sent on a session, or taken, in order.
fn parts(
    alloc: Global,
    history: &[Event],
    session: u32,
    taken: bool,
) -> Result<Vec<Part>, AllocError> {
    let mut all = Vec::new(alloc);
    for event in history {
        let part = if taken {
            taken_by(event)
        } else {
            sent_by(event)
        };
        if let Some(part) = part
            && part.link.session.0 == session
        {
            all.push(part)?;
        }
    }
    Ok(all)
}

// Whether on each session the messages taken are the first that were sent.
fn is_in_order(alloc: Global, history: &[Event], made: u32) -> Result<bool, AllocError> {
    for session in 0..made {
        let sent = parts(alloc, history, session, false)?;
        let taken = parts(alloc, history, session, true)?;
        if !sent.starts_with(&taken) {
            return Ok(false);
        }
    }
    Ok(true)
}

// A run in the order of a seed: how many events it had, whether it came to its end, and whether its
// sessions are in order.
#[derive(Clone, Copy)]
struct Seen {
    steps: usize,
    finished: bool,
    in_order: bool,
}

fn run_by_dice(alloc: Global, program: &Program, seed: u32) -> Result<Seen, AllocError>
    requires runnable { IsRunnable program.now }
    requires accepted { IsAccepted program.now }
    requires forest { IsForest program.now }
{
    let plan = plan(alloc, program)?;
    let mut config = Config::start(alloc, program, plan, 100)?;
    let mut history = Vec::new(alloc);
    let mut dice = seed;
    for _turn in 0..4000 {
        let made = config.process_count();
        if made == 0 {
            break;
        }
        if config.spare() == 0 {
            break;
        }
        dice = dice.wrapping_mul(1_664_525).wrapping_add(1_013_904_223);
        if let Next::Ready(event) = config.step(program, Pid((dice >> 16) % made)) {
            history.push(event)?;
        }
    }
    Ok(Seen {
        steps: history.len(),
        finished: config.outcome(program, 0, 1) == Outcome::Finished,
        in_order: is_in_order(alloc, &history, config.process_count())?,
    })
}

fn run_seed(alloc: Global, text: &str, exec: &str, seed: u32) -> Result<Option<Seen>, AllocError> {
    match program_of(alloc, text, exec)? {
        Some(checked) => Ok(Some(run_by_dice(alloc, checked.program(), seed)?)),
        None => Ok(None),
    }
}

#[test]
fn any_order_keeps_the_order_of_sessions(rt: HostRuntime) -> Result<(), Fail> {
    let alloc = rt.alloc();
    for (text, exec, steps) in [
        (NUMBERS, "exec fw", 6),
        (NUMBERS, "exec main", 26),
        (COUNTER, "exec three", 23),
        (SINK, "exec main", 11),
        (SINK, "exec relay", 1),
        (CHAINS, "exec down", 8),
        (CHAINS, "exec up", 13),
        (CHANNELS, "exec pair", 12),
        (CHANNELS, "exec apply", 10),
        (CHANNELS, "exec total", 36),
        (VALUES, "exec two", 9),
        (COINS, "", 24),
        (TICKS, "", 10),
    ] {
        for seed in [1u32, 7, 2026] {
            match run_seed(alloc, text, exec, seed)? {
                Some(seen) => {
                    assert_eq!(rt; seen.steps, steps);
                    assert!(rt; seen.finished);
                    assert!(rt; seen.in_order);
                }
                None => assert!(rt; false, "there is a program"),
            }
        }
    }
    Ok(())
}
