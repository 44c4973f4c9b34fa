use crate::Scope;
use sml_fix::Side;
use std::test::Fail;
use tl_text::Name;

/// A call that only answers that there is no memory.
#[test]
fn scopes(rt: HostRuntime) -> Result<(), Fail> {
    let alloc = rt.alloc();
    let mut scope = Scope::start(alloc)?;
    let plus = Name::new(alloc, b"+")?;
    let minus = Name::new(alloc, b"-")?;
    let outer = scope.count();
    scope.note(&plus, None)?;
    let inner = scope.count();
    scope.note(&minus, Some((3, Side::Right)))?;
    scope.leave_local(outer, inner)?;
    assert_eq!(rt; scope.fixities().get(&plus), Some((6, Side::Left)));
    assert_eq!(rt; scope.fixities().get(&minus), Some((3, Side::Right)));
    assert!(rt; scope.has_operator());
    scope.leave(outer)?;
    assert_eq!(rt; scope.fixities().get(&minus), Some((6, Side::Left)));
    let taken_up = Scope::of(alloc, scope.fixities())?;
    assert_eq!(rt; taken_up.count(), 18);
    Ok(())
}
