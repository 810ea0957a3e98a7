// Runs of picks, on programs that are read from their texts.
ghost use Rattle.std.specs.Prelude.{◌<◌, ◌^◌, IfOk, IfSome, length};
ghost use Rattle.rast_rules.specs.Plan.{IsForest};
ghost use Rattle.rast_rules.specs.Rules.{IsAccepted};
ghost use Rattle.rast_run_tests.specs.Runnable.{IsRunnable};

use crate::texts::{COINS, NUMBERS, SINK};
use rast_accept::load;
use rast_check::Checked;
use rast_core::{Next, ReplayErr, replay};
use rast_io::LIMIT;
use rast_items::{Event, Pid};
use rast_report::report_text;
use rast_rules::plan;
use rast_terms::Program;
use std::alloc::{AllocError, Global};
use std::test::Fail;

// The accepted program of a text with the item that executes one of its declarations.
pub(crate) fn program_of(
    alloc: Global,
    text: &str,
    exec: &str,
) -> Result<Option<Checked>, AllocError>
    ensures runnable { IfOk result (λ o. IfSome o (λ c. IsRunnable c.program)) }
    ensures accepted { IfOk result (λ o. IfSome o (λ c. IsAccepted c.program)) }
    ensures forest { IfOk result (λ o. IfSome o (λ c. IsForest c.program)) }
{
    let mut all = text.as_bytes().to_vec(alloc)?;
    all.extend_from_slice(exec.as_bytes())?;
    if all.len() > LIMIT {
        return Ok(None);
    }
    let checked = match load(alloc, all) {
        Ok(checked) => checked,
        Err(why) => {
            drop(why);
            return Ok(None);
        }
    };
    if checked.program().main.is_none() {
        drop(checked);
        return Ok(None);
    }
    Ok(Some(checked))
}

// What a list of picks comes to.
#[derive(Drop)]
enum Told {
    // The report with its trace, and the work and the held potential together.
    Report { text: Vec<u8>, total: u128 },
    // The first pick without an event.
    Refused(u32),
    // There is no program.
    Nothing,
}

// The work of a run.
fn spent(history: &[Event]) -> u128 {
    let mut total = 0u128;
    for event in history {
        if let Event::Work { amount, .. } = event {
            total = total.saturating_add(*amount);
        }
    }
    total
}

fn replayed(alloc: Global, program: &Program, picks: &[Pid]) -> Result<Told, AllocError>
    requires runnable { IsRunnable program.now }
    requires accepted { IsAccepted program.now }
    requires forest { IsForest program.now }
    requires few { length picks.now < 2 ^ 32 }
{
    let plan = plan(alloc, program)?;
    match replay(alloc, program, plan, picks) {
        Ok((config, history)) => {
            let steps = picks.len() as u32;
            let outcome = config.outcome(program, steps, steps);
            let text = report_text(alloc, program, outcome, &config, &history, true, true)?;
            let total = spent(&history).saturating_add(config.held());
            Ok(Told::Report { text, total })
        }
        Err(ReplayErr::At { place }) => Ok(Told::Refused(place)),
        Err(ReplayErr::Memory) => Err(AllocError),
    }
}

// What a configuration says of a process, what its second one does next, and what is held.
#[derive(Drop)]
struct Looked {
    path: Vec<u32>,
    next: Next,
    held: u128,
}

fn look_at(
    alloc: Global,
    program: &Program,
    picks: &[Pid],
    pid: u32,
) -> Result<Option<Looked>, AllocError>
    requires runnable { IsRunnable program.now }
    requires accepted { IsAccepted program.now }
    requires forest { IsForest program.now }
    requires few { length picks.now < 2 ^ 32 }
{
    let plan = plan(alloc, program)?;
    match replay(alloc, program, plan, picks) {
        Ok((config, history)) => {
            if pid >= config.process_count() {
                return Ok(None);
            }
            let path = config.path(alloc, Pid(pid))?;
            let next = config.enabled(program, Pid(1));
            let held = config.held();
            Ok(Some(Looked { path, next, held }))
        }
        Err(_) => Ok(None),
    }
}

// The picks of a row of digits, each the number of a process.
fn picks_of(alloc: Global, digits: &[u8]) -> Result<Vec<Pid>, AllocError> {
    let mut picks = Vec::new(alloc);
    for digit in digits {
        picks.push(Pid(digit.wrapping_sub(48) as u32))?;
    }
    Ok(picks)
}

// What the picks of a row of digits come to.
fn replay_digits(alloc: Global, text: &str, exec: &str, digits: &[u8]) -> Result<Told, AllocError> {
    let picks = picks_of(alloc, digits)?;
    if picks.len() > LIMIT {
        return Ok(Told::Nothing);
    }
    match program_of(alloc, text, exec)? {
        Some(checked) => replayed(alloc, checked.program(), &picks),
        None => Ok(Told::Nothing),
    }
}

const HANDED_ON: &str = "1 p0 spawn p1 two @0
2 p1 send p1:0 s @0
3 p0 move p1:0 p0:0 s @0
4 p1 send p1:1 s @0
5 p1 send p1:2 z @0
6 p1 send p1:3 end @0
finished
steps 6
work 0
held 0
time 0
result s . s . z . end
";

const HANDED_ON_LAST: &str = "1 p0 spawn p1 two @0
2 p1 send p1:0 s @0
3 p1 send p1:1 s @0
4 p1 send p1:2 z @0
5 p1 send p1:3 end @0
6 p0 move p1:0 p0:0 s @0
finished
steps 6
work 0
held 0
time 0
result s . s . z . end
";

const SENT_AHEAD: &str = "1 p0 spawn p1 relay @0
2 p0 send p1:0 s @0
3 p0 send p1:1 z @0
4 p1 spawn p2 eat @0
5 p1 move p1:0 p2:0 s @0
6 p2 take p2:0 s @0
7 p2 call eat @0
8 p2 take p1:1 z @0
9 p2 send p1:2 end @0
10 p0 take p1:2 end @0
11 p0 send p0:0 end @0
finished
steps 11
work 0
held 0
time 0
result end
";

const IN_TURNS: &str = "1 p0 spawn p1 relay @0
2 p1 spawn p2 eat @0
3 p0 send p1:0 s @0
4 p1 move p1:0 p2:0 s @0
5 p2 take p2:0 s @0
6 p2 call eat @0
7 p0 send p1:1 z @0
8 p2 take p1:1 z @0
9 p2 send p1:2 end @0
10 p0 take p1:2 end @0
11 p0 send p0:0 end @0
finished
steps 11
work 0
held 0
time 0
result end
";

#[test]
fn picks_give_their_trace(rt: HostRuntime) -> Result<(), Fail> {
    let alloc = rt.alloc();
    for (text, exec, digits, want) in [
        (NUMBERS, "exec fw", "010111", HANDED_ON),
        (NUMBERS, "exec fw", "011110", HANDED_ON_LAST),
        (SINK, "exec main", "00011222200", SENT_AHEAD),
        (SINK, "exec main", "01012202200", IN_TURNS),
    ] {
        match replay_digits(alloc, text, exec, digits.as_bytes())? {
            Told::Report { text, .. } => assert_eq!(rt; text.as_slice(), want.as_bytes()),
            _ => assert!(rt; false, "the picks are a run"),
        }
    }
    Ok(())
}

#[test]
fn a_pick_without_an_event_is_named(rt: HostRuntime) -> Result<(), Fail> {
    let alloc = rt.alloc();
    for (text, exec, digits, want) in [
        (NUMBERS, "exec fw", "1", 0),
        (NUMBERS, "exec fw", "10", 0),
        (NUMBERS, "exec fw", "02", 1),
        (NUMBERS, "exec fw", "00", 1),
        (NUMBERS, "exec fw", "0100", 3),
        (NUMBERS, "exec fw", "0101111", 6),
        (SINK, "exec main", "0002", 3),
        (SINK, "exec main", "011", 2),
        (SINK, "exec main", "000112220", 8),
        (SINK, "exec eat", "0", 0),
    ] {
        match replay_digits(alloc, text, exec, digits.as_bytes())? {
            Told::Refused(place) => assert_eq!(rt; place, want),
            _ => assert!(rt; false, "a pick has no event"),
        }
    }
    Ok(())
}

// After each event work and held potential are together what main began with.
#[test]
fn no_potential_is_lost(rt: HostRuntime) -> Result<(), Fail> {
    let alloc = rt.alloc();
    for digits in [b"001111110000000000000000", b"001100000011000000110000"] {
        for count in 0..=24 {
            match replay_digits(alloc, COINS, "", &digits[..count])? {
                Told::Report { total, .. } => assert_eq!(rt; total, 4),
                _ => assert!(rt; false, "the picks are a run"),
            }
        }
    }
    Ok(())
}

const BRANCHING: &str = "explicit
decl one : . |- (x : 1)
proc x <- one = close x
decl two : . |- (x : 1)
proc x <- two = c <- one ; wait c ; close x
decl main : . |{3}- (u : 1)
proc u <- main = work {1} ; a <- one ; b <- two ; wait a ; wait b ; work {2} ; close u
";

// Main has spent 1 of its 3 and made two children, of which the second has made one.
#[test]
fn a_configuration_tells_paths(rt: HostRuntime) -> Result<(), Fail> {
    let alloc = rt.alloc();
    let picks = [Pid(0), Pid(0), Pid(0), Pid(2)];
    let paths: [&[u32]; 4] = [&[], &[1], &[2], &[2, 1]];
    match program_of(alloc, BRANCHING, "exec main")? {
        Some(checked) => {
            for pid in 0..4 {
                match look_at(alloc, checked.program(), &picks, pid as u32)? {
                    Some(looked) => {
                        assert_eq!(rt; looked.path.as_slice(), paths[pid]);
                        assert_eq!(rt; looked.held, 2);
                    }
                    None => assert!(rt; false, "the process was made"),
                }
            }
        }
        None => assert!(rt; false, "there is a program"),
    }
    Ok(())
}

// The relay has handed on its message and is gone.
#[test]
fn a_process_that_is_gone_has_ended(rt: HostRuntime) -> Result<(), Fail> {
    let alloc = rt.alloc();
    let picks = [Pid(0), Pid(0), Pid(0), Pid(1), Pid(1)];
    match program_of(alloc, SINK, "exec main")? {
        Some(checked) => match look_at(alloc, checked.program(), &picks, 2)? {
            Some(looked) => assert_eq!(rt; looked.next, Next::Ended),
            None => assert!(rt; false, "the process was made"),
        },
        None => assert!(rt; false, "there is a program"),
    }
    Ok(())
}
