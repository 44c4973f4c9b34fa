use crate::sources::damaged;
use sml_lex::lex;
use std::process::Abort;
use std::test::Fail;
use tl_text::{Fault, code_number};

/// A source of some sixty tokens, of each kind.
const SOURCE: &[u8] =
    b"structure S :> SIG = struct\n  (* a (* b *) c *)\n  datatype 'a t = A of ''b | B.c\n  val rec f = fn (x, _) => x + 0x1F - ~3 :: [#\"a\", \"b\\n\\ \\c\", 0w9, 0wxA]\n  infix 4 ==> ; fun g {lab = 1, ...} = if a <> b then #2 c else raise E\nend";

/// A token list or a code, at a place within the source.
fn check(rt: &(impl Abort + AllocGlobal), source: &[u8]) {
    assert!(rt; source.len() < 100_000);
    match lex(rt.alloc(), 1, source) {
        Ok(tokens) => {
            for token in tokens.items() {
                let byte = token.place.byte as usize;
                assert!(rt; byte <= source.len());
                assert!(rt; token.len as usize <= source.len() - byte);
            }
        }
        Err(Fault::Refused(refusal)) => {
            let number = code_number(refusal.code);
            assert!(rt; number <= 6 || number == 9);
            assert!(rt; refusal.place.byte as usize <= source.len());
        }
        Err(Fault::NoMemory(_)) => assert!(rt; false, "no memory"),
    }
}

#[test]
fn tokens_of_each_kind(rt: HostRuntime) -> Result<(), Fail> {
    match lex(rt.alloc(), 1, SOURCE) {
        Ok(tokens) => assert_eq!(rt; tokens.items().len(), 68),
        Err(_) => assert!(rt; false, "refused"),
    }
    Ok(())
}

/// A prefix that is answered past its end, or not at all.
#[test]
fn prefixes(rt: HostRuntime) -> Result<(), Fail> {
    for n in 0..SOURCE.len() {
        let (prefix, _) = SOURCE.split_at(n);
        check(&rt, prefix);
    }
    Ok(())
}

/// A source with one byte changed that is answered past its end, or not at all.
#[test]
fn damages(rt: HostRuntime) -> Result<(), Fail> {
    for at in 0..SOURCE.len() {
        for byte in 0..=u8::MAX {
            let source = damaged(rt.alloc(), SOURCE, at, byte)?;
            check(&rt, source.as_slice());
        }
    }
    Ok(())
}
