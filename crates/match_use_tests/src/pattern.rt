ghost use Rattle.std.specs.Prelude.{◌≡◌, ◌<◌, map, [], ◌∷◌, IfOk};
ghost use Rattle.std.specs.Option.{option_map};
ghost use Rattle.tl_text.specs.Pairs.{seconds, map_second};
ghost use Rattle.sml_static.specs.Shapes.{Of, Exn, Wild, Cell, Literal, Made, pattern_of, tuple_of, argument_of};

use sml_static::{Label, MidPat, Ty, TyName};
use std::alloc::Global;
use tl_text::{Boxed, List, Lit, Name, NoMemory, Path};

/// A datatype of the tests: the number of its name, and how many constructors its patterns say that it has.
#[derive(Clone, Copy)]
pub struct Datatype {
    pub number: u32,
    pub count: u32,
}

fn no_type(alloc: Global) -> Ty {
    Ty::Fields(List::new(alloc))
}

/// `_`
pub fn anything(alloc: Global) -> MidPat
    ensures { pattern_of result ≡ Wild }
{
    MidPat::Any(no_type(alloc))
}

/// `x`
pub fn variable(alloc: Global) -> Result<MidPat, NoMemory>
    ensures { IfOk result (λ p. pattern_of p ≡ Wild) }
{
    let name = Name::new(alloc, b"x")?;
    Ok(MidPat::Var(1, name, no_type(alloc)))
}

/// A literal.
pub fn literal(value: Lit) -> MidPat
    ensures { pattern_of result ≡ Literal value }
{
    MidPat::Lit(value)
}

/// `(pat, .., pat)`
pub fn tuple(parts: List<MidPat>) -> MidPat
    ensures { pattern_of result ≡ tuple_of (map pattern_of parts) }
{
    MidPat::Tuple(parts)
}

/// `{lab = pat, .., ...}`
pub fn flexible(alloc: Global, fields: List<(Label, MidPat)>) -> MidPat
    ensures { pattern_of result ≡ tuple_of (seconds (map_second pattern_of fields)) }
{
    MidPat::Flex(fields, no_type(alloc))
}

/// `ref pat`
pub fn reference(alloc: Global, content: MidPat) -> Result<MidPat, NoMemory>
    ensures { IfOk result (λ p. pattern_of p ≡ Cell (pattern_of content)) }
{
    let content = Boxed::new(alloc, content)?;
    Ok(MidPat::Cell(content))
}

/// `x as pat`
pub fn layer(alloc: Global, inner: MidPat) -> Result<MidPat, NoMemory>
    ensures { IfOk result (λ p. pattern_of p ≡ pattern_of inner) }
{
    let name = Name::new(alloc, b"x")?;
    let inner = Boxed::new(alloc, inner)?;
    Ok(MidPat::Layer(2, name, inner))
}

fn boxed(alloc: Global, argument: Option<MidPat>) -> Result<Option<Boxed<MidPat>>, NoMemory>
    ensures { IfOk result (λ b. option_map pattern_of b ≡ option_map pattern_of argument) }
{
    match argument {
        None => Ok(None),
        Some(pat) => Ok(Some(Boxed::new(alloc, pat)?)),
    }
}

fn path_of(alloc: Global, structure: &[u8], name: &[u8]) -> Result<Path, NoMemory>
    ensures { IfOk result (λ p. p ≡ structure.now ∷ (name.now ∷ [])) }
{
    let mut path = Path::new(alloc);
    path.push(Name::new(alloc, structure)?)?;
    path.push(Name::new(alloc, name)?)?;
    Ok(path)
}

/// `structure.name` or `structure.name pat`, a constructor of the datatype.
pub fn constructor(
    alloc: Global,
    of: Datatype,
    structure: &[u8],
    name: &[u8],
    argument: Option<MidPat>,
) -> Result<MidPat, NoMemory>
    requires { 0 < of.count }
    ensures { IfOk result (λ p. pattern_of p ≡ Made (Of of.number name.now) of.count (argument_of (option_map pattern_of argument))) }
{
    let path = path_of(alloc, structure, name)?;
    let argument = boxed(alloc, argument)?;
    let made = TyName {
        id: of.number,
        arity: 0,
        equality: true,
    };
    let ty = Ty::Con(made, List::new(alloc));
    Ok(MidPat::Con(path, ty, of.count, argument))
}

/// `structure.name` or `structure.name pat`, an exception.
pub fn exception(
    alloc: Global,
    structure: &[u8],
    name: &[u8],
    argument: Option<MidPat>,
) -> Result<MidPat, NoMemory>
    ensures { IfOk result (λ p. pattern_of p ≡ Made (Exn (structure.now ∷ (name.now ∷ []))) 0 (argument_of (option_map pattern_of argument))) }
{
    let path = path_of(alloc, structure, name)?;
    let argument = boxed(alloc, argument)?;
    Ok(MidPat::Con(path, no_type(alloc), 0, argument))
}
