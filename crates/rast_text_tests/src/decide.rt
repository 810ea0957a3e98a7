// The greatest length of a formula. No word of a case file is so long.
use rast_decide::{Decided, decide_text, status};
use std::alloc::{AllocError, Global};
use std::test::Fail;

// The status and the line of a text of so many blanks.
fn blanks(alloc: Global, size: usize) -> Result<(u8, Vec<u8>), AllocError> {
    let text = vec![in alloc; 32u8; size]?;
    let decided = decide_text(alloc, &text);
    drop(text);
    let Decided { decision, line } = decided?;
    Ok((status(decision), line))
}

#[test]
fn a_text_has_a_greatest_length(rt: HostRuntime) -> Result<(), Fail> {
    let (code, line) = blanks(rt.alloc(), 1_048_576)?;
    assert_eq!(rt; code, 1);
    assert_eq!(rt;
        line.as_slice(),
        b"refused: syntax at byte 1048576\n".as_slice()
    );
    Ok(())
}

#[test]
fn a_longer_text_is_too_long(rt: HostRuntime) -> Result<(), Fail> {
    let (code, line) = blanks(rt.alloc(), 1_048_577)?;
    assert_eq!(rt; code, 9);
    assert_eq!(rt; line.as_slice(), b"too long\n".as_slice());
    Ok(())
}
