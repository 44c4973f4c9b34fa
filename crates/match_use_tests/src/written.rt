use crate::pattern::{
    Datatype, anything, constructor, exception, flexible, layer, literal, reference, tuple,
    variable,
};
use mid_ast::{MidExp, MidRule};
use sml_static::{Label, MidPat};
use std::alloc::Global;
use std::test::Fail;
use tl_text::{List, Lit, Name, NoMemory, Place};

const LIST: Datatype = Datatype {
    number: 6,
    count: 2,
};

const COLOUR: Datatype = Datatype {
    number: 20,
    count: 3,
};

/// The same datatype, as a pattern that is wrong about it has it.
const WRONG: Datatype = Datatype {
    number: 20,
    count: 4,
};

pub fn rule(pat: MidPat) -> MidRule {
    MidRule {
        pat,
        exp: MidExp::Lit(Lit::Int(0)),
        place: Place {
            source: 0,
            line: 1,
            col: 1,
            byte: 0,
        },
    }
}

/// A rule for each word.
pub fn rules_of(alloc: Global, words: &[&[u8]]) -> Result<Vec<MidRule>, Fail> {
    let mut rules = Vec::new(alloc);
    for word in words {
        rules.push(rule(read(alloc, *word)?))?;
    }
    Ok(rules)
}

/// The pattern that a word spells:
///
/// - `_` is anything, and `x` a variable;
/// - digits are whole numbers, `a` and `b` characters, `v` and `w` words, `e` the empty text and `t` another;
/// - `N` and `:` are `nil` and `::`, and `R`, `G` and `B` the three constructors of another datatype, `r` being `R` by
///   another path, `Q` a fourth one, and `C` an `R` that says four;
/// - `E` and `F` are exceptions, and `D` is one of the same name as `E` in another structure;
/// - `!` is a reference, and `@` a layer;
/// - `(..)` is a tuple, and `{..}` a record with `...` that names its first fields.
///
/// An argument stands behind what is applied to it: `:`, `F`, `!` and `@` have one.
fn read(alloc: Global, word: &[u8]) -> Result<MidPat, Fail> {
    // From the end to the front: then what stands behind is read, and lies on top.
    let mut stack = Vec::new(alloc);
    for sign in word.iter().rev() {
        let pat = pattern_of(alloc, &mut stack, *sign)?;
        stack.push(pat)?;
    }
    argument(&mut stack)
}

// The pattern of a sign, with those that it needs taken from the stack; `)` and `}` lie there as None.
fn pattern_of(
    alloc: Global,
    stack: &mut Vec<Option<MidPat>>,
    sign: u8,
) -> Result<Option<MidPat>, Fail> {
    match sign {
        b')' | b'}' => Ok(None),
        b'(' => Ok(Some(tuple(parts(alloc, stack)?))),
        b'{' => Ok(Some(flexible(alloc, fields(alloc, stack)?))),
        b'!' => Ok(Some(reference(alloc, argument(stack)?)?)),
        b'@' => Ok(Some(layer(alloc, argument(stack)?)?)),
        b':' => {
            let of = argument(stack)?;
            Ok(Some(constructor(alloc, LIST, b"M", b"::", Some(of))?))
        }
        b'F' => {
            let of = argument(stack)?;
            Ok(Some(exception(alloc, b"M", b"F", Some(of))?))
        }
        _ => Ok(Some(alone(alloc, sign)?)),
    }
}

// The pattern of a sign without an argument.
fn alone(alloc: Global, sign: u8) -> Result<MidPat, NoMemory> {
    match sign {
        b'_' => Ok(anything(alloc)),
        b'x' => variable(alloc),
        b'a' => Ok(literal(Lit::Char(0))),
        b'b' => Ok(literal(Lit::Char(255))),
        b'v' => Ok(literal(Lit::Word(1))),
        b'w' => Ok(literal(Lit::Word(2))),
        b'e' => Ok(literal(Lit::Text(Name::new(alloc, b"")?))),
        b't' => Ok(literal(Lit::Text(Name::new(alloc, b"t")?))),
        b'N' => constructor(alloc, LIST, b"M", b"nil", None),
        b'r' => constructor(alloc, COLOUR, b"S", b"R", None),
        b'C' => constructor(alloc, WRONG, b"M", b"R", None),
        b'E' => exception(alloc, b"M", b"E", None),
        b'D' => exception(alloc, b"S", b"E", None),
        b'R' | b'G' | b'B' | b'Q' => constructor(alloc, COLOUR, b"M", &[sign], None),
        _ => Ok(literal(Lit::Int(sign as i64))),
    }
}

// The pattern on top.
fn argument(stack: &mut Vec<Option<MidPat>>) -> Result<MidPat, Fail> {
    match stack.pop() {
        Some(Some(pat)) => Ok(pat),
        _ => Err(Fail::from("a pattern is missing")),
    }
}

// Those on top down to the end of their tuple.
fn parts(alloc: Global, stack: &mut Vec<Option<MidPat>>) -> Result<List<MidPat>, NoMemory> {
    let mut parts = List::new(alloc);
    while let Some(Some(pat)) = stack.pop() {
        parts.push(pat)?;
    }
    Ok(parts)
}

// The same with labels.
fn fields(
    alloc: Global,
    stack: &mut Vec<Option<MidPat>>,
) -> Result<List<(Label, MidPat)>, NoMemory> {
    let mut fields = List::new(alloc);
    let mut label = 0u32;
    for pat in parts(alloc, stack)?.into_vec() {
        label = label.wrapping_add(1);
        fields.push((Label::Num(label), pat))?;
    }
    Ok(fields)
}
