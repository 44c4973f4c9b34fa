use crate::shown::shown;
use crate::sources::around;
use std::process::Abort;
use std::test::Fail;

fn check(rt: &(impl Abort + AllocGlobal), source: &[u8], expected: &str) -> Result<(), Fail> {
    let found = shown(rt.alloc(), source)?;
    assert_eq!(rt; found.as_str(), expected);
    Ok(())
}

/// A limit that is one off, a part that is not looked at, or a later code that comes first.
#[test]
fn long_names(rt: HostRuntime) -> Result<(), Fail> {
    check(
        &rt,
        around(rt.alloc(), b"'", 255, b"")?.as_slice(),
        "error 9 @1:1/0",
    )?;
    check(
        &rt,
        around(rt.alloc(), b"x\n A.", 256, b".c")?.as_slice(),
        "error 9 @2:2/3",
    )?;
    check(
        &rt,
        around(rt.alloc(), b"", 256, b"\n\x01")?.as_slice(),
        "error 1 @2:1/257",
    )?;
    let accepted = shown(
        rt.alloc(),
        around(rt.alloc(), b"A.", 255, b".c")?.as_slice(),
    )?;
    assert!(rt;
        accepted
            .as_str()
            .ends_with("@1:1/0+259; end @1:260/259+0; ")
    );
    Ok(())
}
