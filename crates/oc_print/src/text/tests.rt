use super::*;
use oc_ast::{APat, Atom, Full, MExp, OcLit, Pat, Rest, Simple};
use tl_text::{Boxed, List, Name, Path};

// `let _ = Rt.print "hi\n"`
fn call(alloc: Global) -> Result<Item, NoMemory> {
    let mut path = Path::new(alloc);
    path.push(Name::new(alloc, b"Rt")?)?;
    path.push(Name::new(alloc, b"print")?)?;
    let head = Boxed::new(alloc, Atom::Val(path))?;
    let text = Name::new(alloc, b"hi\n")?;
    let arg = Boxed::new(alloc, Atom::Const(OcLit::Text(text)))?;
    Ok(Item::Let(Pat::PAt(APat::Any), Simple::Call(head, arg)))
}

fn unit(alloc: Global) -> Result<Text, NoMemory> {
    let mut inner = List::new(alloc);
    inner.push(call(alloc)?)?;
    let body = Boxed::new(alloc, MExp::Struct(inner))?;
    let mut items = List::new(alloc);
    items.push(Item::Module(Name::new(alloc, b"U1_a")?, body))?;
    Ok(Text::All(items))
}

fn hello(alloc: Global) -> Result<Vec<u8>, NoMemory> {
    let text = unit(alloc)?;
    laid_out(alloc, &text)
}

// That memory is enough for a text is no clause.
#[test]
fn a_unit_is_laid_out(rt: HostRuntime) {
    let want = b"module U1_a = struct\n  let _ = Rt.print \"hi\\n\"\nend\n";
    assert!(rt; matches!(hello(rt.alloc()), Ok(bytes) if bytes.as_slice() == want.as_slice()));
}

#[test]
fn the_empty_text_has_no_bytes(rt: HostRuntime) {
    let text = Text::All(List::new(rt.alloc()));
    assert!(rt; matches!(print(rt.alloc(), &text), Ok(bytes) if bytes.is_empty()));
}

// `let x = l`
fn binding(alloc: Global, name: &[u8], value: OcLit) -> Result<Vec<u8>, NoMemory> {
    let name = Name::new(alloc, name)?;
    let item = Item::Let(Pat::PAt(APat::PVar(name)), Simple::One(Atom::Const(value)));
    let mut items = List::new(alloc);
    items.push(item)?;
    laid_out(alloc, &Text::All(items))
}

fn number_is(alloc: Global, name: &[u8], value: i64, want: &[u8]) -> bool {
    matches!(binding(alloc, name, OcLit::Int(value)), Ok(bytes) if bytes.as_slice() == want)
}

fn text_is(alloc: Global, name: &[u8], value: &[u8], want: &[u8]) -> bool {
    match Name::new(alloc, value) {
        Ok(text) => {
            matches!(binding(alloc, name, OcLit::Text(text)), Ok(bytes) if bytes.as_slice() == want)
        }
        Err(NoMemory) => false,
    }
}

// Literals by their lines, from the rules of the layout: a number kept without its sign's parentheses or a byte in
// another base would be read as another program.
#[test]
fn literals_have_their_lines(rt: HostRuntime) {
    let alloc = rt.alloc();
    assert!(rt; number_is(alloc, b"v_Foo'", 3, b"let v_Foo' = 3\n"));
    assert!(rt; number_is(alloc, b"it's", 1, b"let it's = 1\n"));
    assert!(rt; number_is(alloc, b"n", -5, b"let n = (-5)\n"));
    assert!(rt; number_is(alloc, b"w", 255, b"let w = 255\n"));
    assert!(rt;
        number_is(
            alloc,
            b"m",
            -4_611_686_018_427_387_904,
            b"let m = (-4611686018427387904)\n"
        )
    );
    assert!(rt; text_is(alloc, b"s", &[1, 200], b"let s = \"\\001\\200\"\n"));
    assert!(rt; text_is(alloc, b"q", b"\"'\\\n\t", b"let q = \"\\\"'\\\\\\n\\t\"\n"));
}

// `let _ = () in (); fun _ -> ..`, again and again
fn chain(alloc: Global, count: usize) -> Result<Full, NoMemory> {
    let mut full = Full::Is(Simple::One(Atom::Unit));
    for _ in 0..count {
        let rest = Rest::new(alloc, full)?;
        let pattern = Boxed::new(alloc, APat::Any)?;
        let rest = Rest::new(alloc, Full::Is(Simple::Fun(pattern, rest)))?;
        let first = Boxed::new(alloc, Atom::Unit)?;
        let rest = Rest::new(alloc, Full::Then(first, rest))?;
        let pattern = Boxed::new(alloc, Pat::PAt(APat::Any))?;
        let right = Boxed::new(alloc, Simple::One(Atom::Unit))?;
        full = Full::LetIn(pattern, right, rest);
    }
    Ok(full)
}

fn length_of_chain(alloc: Global, count: usize) -> Result<usize, NoMemory> {
    let full = Boxed::new(alloc, chain(alloc, count)?)?;
    let mut items = List::new(alloc);
    items.push(Item::Let(Pat::PAt(APat::Any), Simple::One(Atom::Paren(full))))?;
    let bytes = laid_out(alloc, &Text::All(items))?;
    Ok(bytes.len())
}

// A recursion along the chain, in the printer or in a drop, would end the stack.
#[test]
fn long_chains_are_laid_out_and_dropped(rt: HostRuntime) {
    assert!(rt; matches!(length_of_chain(rt.alloc(), 100_000), Ok(length) if length == 3_100_013));
}
