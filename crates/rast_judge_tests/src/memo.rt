// Numbers and verdicts of obligations.
use rast_cooper::Verdict;
use rast_index::Formula;
use rast_memo::Memo;
use std::test::Fail;

#[test]
fn numbers_equal_ones_once(rt: HostRuntime) -> Result<(), Fail> {
    let mut memo = Memo::new(rt.alloc());
    assert_eq!(rt; memo.insert(rt.alloc(), 1, &[], &Formula::True)?, 0);
    assert_eq!(rt; memo.insert(rt.alloc(), 2, &[], &Formula::True)?, 1);
    assert_eq!(rt; memo.insert(rt.alloc(), 1, &[], &Formula::True)?, 0);
    Ok(())
}

#[test]
fn decides_what_was_inserted(rt: HostRuntime) -> Result<(), Fail> {
    let mut memo = Memo::new(rt.alloc());
    let number = memo.insert(rt.alloc(), 1, &[], &Formula::False)?;
    assert!(rt; memo.verdict_of(number).is_none());
    memo.decide_all(rt.alloc())?;
    assert_eq!(rt;
        memo.verdict_of(number).copied(),
        Some(Verdict::Fails { values: [0; 16] })
    );
    Ok(())
}
