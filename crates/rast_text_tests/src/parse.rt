// Texts that are files, each kind of item, prefix, statement and end among them. What is no file
// stands in the case files of `rast_rows`.
ghost use Rattle.std.specs.Prelude.{◌≤◌, ◌^◌, length};

use rast_lex::tokens;
use rast_parse::parse;
use std::alloc::{AllocError, Global};
use std::test::Fail;

// Whether a text is a file.
fn is_file(rt: &HostRuntime, text: &[u8]) -> bool
    requires { length text.now ≤ 2 ^ 20 }
{
    match tokens(rt.alloc(), text) {
        Ok(list) => parse(rt.alloc(), text, list.as_slice()).is_ok(),
        Err(_) => false,
    }
}

// Each kind of item, of prefix, of step and of end.
#[test]
fn reads_files(rt: HostRuntime) {
    assert!(rt;
        is_file(
            &rt,
            b"type a = &{l : a * 1 -o a, r : !n. <{n}| ({2 * n}) (a)} decl f : . |- (x : a) proc x <- f = y <- f ; send x {1} ; x.l ; delay {2} ; work {1} ; x <-> y"
        )
    );
    assert!(rt;
        is_file(
            &rt,
            b"explicit type t{n} = +{z : ?{n = 0}. 1, s : ?m. !{m = n}. |{2}> () t{n - 1}} eq{n} if n >= 1 : t{n} = t{n} by 1{n}, refl decl f{n} : (x : t{n}) |{3}- (y : 1) proc y <- f{n} x = case x (z => assume x ; wait x ; close y | s => {m} <- recv x ; get x ; y <- f{n - 1} x) exec f"
        )
    );
}

// Each kind of statement, and each end.
#[test]
fn reads_each_statement(rt: HostRuntime) {
    assert!(rt;
        is_file(
            &rt,
            b"explicit proc x <- p = x.l ; send x w by refl, 2{n} ; send x {n - 1} ; y <- recv x ; {n} <- recv x ; close x"
        )
    );
    assert!(rt;
        is_file(
            &rt,
            b"explicit proc x <- p = wait y ; z <- f{1}{n} a b by 1 ; work {2} ; delay {1} ; assert x ; assume x ; pay x ; get x ; close x"
        )
    );
    assert!(rt;
        is_file(
            &rt,
            b"explicit proc x <- p = case x (a => x <-> y by refl | b => x <- f{0} y | c => impossible) exec p"
        )
    );
}

// A process term in so many cases.
fn nested(alloc: Global, cases: usize, inner: &[u8]) -> Result<Vec<u8>, AllocError> {
    let mut text = b"proc x <- p = ".to_vec(alloc)?;
    for _ in 0..cases {
        text.extend_from_slice(b"case x(a=>")?;
    }
    text.extend_from_slice(inner)?;
    for _ in 0..cases {
        text.extend_from_slice(b")")?;
    }
    Ok(text)
}

// Whether the text of such a term is a file.
fn is_file_in_cases(rt: &HostRuntime, cases: usize, inner: &[u8]) -> Result<bool, AllocError> {
    let text = nested(rt.alloc(), cases, inner)?;
    let is_read = text.len() <= 1_048_576 && is_file(rt, text.as_slice());
    drop(text);
    Ok(is_read)
}

// In 63 cases a term is the 64th that is open; an amount of work is a term below its process term.
#[test]
fn counts_what_is_open(rt: HostRuntime) -> Result<(), Fail> {
    assert_eq!(rt; is_file_in_cases(&rt, 63, b"close x")?, true);
    assert_eq!(rt; is_file_in_cases(&rt, 62, b"work {1} ; close x")?, true);
    Ok(())
}
