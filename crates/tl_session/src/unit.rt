ghost use Rattle.std.specs.Prelude.{◌≡◌, [], ◌∷◌, map, IfOk};
ghost use Rattle.oc_ast.specs.Plain.{Val, Module, Struct, NoItems, MoreItems};
ghost use Rattle.oc_ast.specs.View.{plain_atom, plain_item, plain_pat, plain_simple, plain_text, row_of_items};
ghost use Rattle.oc_layout.specs.Layout.{Layout};
ghost use Rattle.tl_session.specs.LawfulItems.{LawfulTarget, LawfulItems};
ghost use Rattle.tl_session.specs.Written as written;
ghost use Rattle.built_items.specs.declared.item.Value.TheVariants as value_is;

use crate::base::base_bytes;
use built_items::{SourceItem, Target, Value};
use oc_ast::{APat, ATy, Atom, Full, Item, MExp, OTy, OcLit, Pat, Rest, Simple, TDef, Text};
use oc_names::{NameKind, mangle};
use oc_print::print;
use std::alloc::Global;
use tl_text::{Boxed, List, Lit, Name, NoMemory, Path};

/// The text of the unit with this number, of a source with this name. The items are those of a program.
pub fn unit_text(
    alloc: Global,
    number: u32,
    name: &str,
    items: &[SourceItem],
) -> Result<Vec<u8>, NoMemory>
    requires { LawfulItems items.now }
    ensures { IfOk result (λ text. text.items ≡ Layout (written.unit_tree number (written.base_of name.now) items.now)) }
{
    let tree = unit_module(alloc, number, name, items)?;
    print(alloc, &tree)
}

/// The text of the module `Rt`.
pub fn rt_text(alloc: Global) -> Result<Vec<u8>, NoMemory>
    ensures { IfOk result (λ text. text.items ≡ Layout written.rt_tree) }
{
    let tree = rt_module(alloc)?;
    print(alloc, &tree)
}

/// The module of a source.
fn unit_module(
    alloc: Global,
    number: u32,
    name: &str,
    items: &[SourceItem],
) -> Result<Text, NoMemory>
    requires { LawfulItems items.now }
    ensures { IfOk result (λ text. plain_text text ≡ written.unit_tree number (written.base_of name.now) items.now) }
{
    let name = unit_name(alloc, number, name)?;
    let items = unit_items(alloc, items)?;
    module(alloc, name, items)
}

/// A text of one module.
fn module(alloc: Global, name: Name, items: List<Item>) -> Result<Text, NoMemory>
    ensures { IfOk result (λ text. plain_text text ≡ MoreItems (Module name (Struct (row_of_items (map plain_item items)))) NoItems) }
{
    let body = Boxed::new(alloc, MExp::Struct(items))?;
    let mut outer = List::new(alloc);
    outer.push(Item::Module(name, body))?;
    Ok(Text::All(outer))
}

/// The name of the module of a source.
fn unit_name(alloc: Global, number: u32, name: &str) -> Result<Name, NoMemory>
    ensures { IfOk result (λ n. n ≡ written.unit_name number (written.base_of name.now)) }
{
    let base = base_bytes(alloc, name.as_bytes())?;
    let digits = u64::from(number).to_string(alloc)?;
    let mut bytes = Vec::from_slice(alloc, b"U")?;
    bytes.extend_from_slice(digits.as_bytes())?;
    bytes.push(b'_')?;
    bytes.extend_from_slice(base.as_slice())?;
    Name::new(alloc, bytes.as_slice())
}

/// The items of a unit.
fn unit_items(alloc: Global, items: &[SourceItem]) -> Result<List<Item>, NoMemory>
    requires { LawfulItems items.now }
    ensures { IfOk result (λ made. row_of_items (map plain_item made) ≡ written.items_tree items.now) }
{
    let mut made = List::new(alloc);
    for item in items {
        made.push(item_of(alloc, item)?)?;
    }
    Ok(made)
}

/// The item of an item: `let pat = exp`.
fn item_of(alloc: Global, item: &SourceItem) -> Result<Item, NoMemory>
    requires { LawfulTarget item.now.target }
    ensures { IfOk result (λ made. plain_item made ≡ written.item_tree item.now) }
{
    let target = target_of(alloc, &item.target)?;
    let value = value_of(alloc, &item.value)?;
    Ok(Item::Let(target, value))
}

/// `_`, or the written name of a variable.
fn target_of(alloc: Global, target: &Target) -> Result<Pat, NoMemory>
    requires { LawfulTarget target.now }
    ensures { IfOk result (λ made. plain_pat made ≡ written.target_tree target.now) }
{
    match target {
        Target::Wild => Ok(Pat::PAt(APat::Any)),
        Target::Var(name) => {
            let name = mangle(alloc, NameKind::Value, name)?;
            Ok(Pat::PAt(APat::PVar(name)))
        }
    }
}

/// A literal, or `Rt.print ".."`.
fn value_of(alloc: Global, value: &Value) -> Result<Simple, NoMemory>
    ensures { IfOk result (λ made. plain_simple made ≡ written.value_tree value.now) }
{
    match value {
        Value::Literal(literal) => Ok(Simple::One(Atom::Const(literal_of(alloc, literal)?))),
        Value::Printed(bytes) => print_call(alloc, bytes),
    }
}

/// `Rt.print ".."`.
fn print_call(alloc: Global, text: &Name) -> Result<Simple, NoMemory>
    ensures { IfOk result (λ made. plain_simple made ≡ written.value_tree (value_is.Printed text.now)) }
{
    let mut path = Path::new(alloc);
    path.push(Name::new(alloc, b"Rt")?)?;
    path.push(Name::new(alloc, b"print")?)?;
    let head = Boxed::new(alloc, Atom::Val(path))?;
    let text = Name::new(alloc, text.bytes())?;
    let arg = Boxed::new(alloc, Atom::Const(OcLit::Text(text)))?;
    Ok(Simple::Call(head, arg))
}

/// The literal of a literal; a word is its number.
fn literal_of(alloc: Global, literal: &Lit) -> Result<OcLit, NoMemory>
    ensures { IfOk result (λ made. made ≡ written.literal_of literal.now) }
{
    match literal {
        Lit::Int(value) => Ok(OcLit::Int(*value)),
        Lit::Word(value) => Ok(OcLit::Int(i64::from(*value))),
        Lit::Char(byte) => Ok(OcLit::Char(*byte)),
        Lit::Text(bytes) => {
            let text = Name::new(alloc, bytes.bytes())?;
            Ok(OcLit::Text(text))
        }
    }
}

/// The module `Rt`.
fn rt_module(alloc: Global) -> Result<Text, NoMemory>
    ensures { IfOk result (λ text. plain_text text ≡ written.rt_tree) }
{
    let word = word_item(alloc)?;
    let print = print_item(alloc)?;
    let mut items = List::new(alloc);
    items.push(word)?;
    items.push(print)?;
    let name = Name::new(alloc, b"Rt")?;
    module(alloc, name, items)
}

/// `type word = int`.
fn word_item(alloc: Global) -> Result<Item, NoMemory>
    ensures { IfOk result (λ made. plain_item made ≡ written.word_item) }
{
    let mut path = Path::new(alloc);
    path.push(Name::new(alloc, b"int")?)?;
    let name = Name::new(alloc, b"word")?;
    let ty = OTy::TAt(ATy::TCon(List::new(alloc), path));
    let mut defs = List::new(alloc);
    defs.push(TDef::Alias(List::new(alloc), name, ty))?;
    Ok(Item::Types(defs))
}

/// `let print = fun s -> print_string s`.
fn print_item(alloc: Global) -> Result<Item, NoMemory>
    ensures { IfOk result (λ made. plain_item made ≡ written.print_item) }
{
    let head = Boxed::new(alloc, variable(alloc, b"print_string")?)?;
    let arg = Boxed::new(alloc, variable(alloc, b"s")?)?;
    let body = Rest::new(alloc, Full::Is(Simple::Call(head, arg)))?;
    let param = Name::new(alloc, b"s")?;
    let pattern = Boxed::new(alloc, APat::PVar(param))?;
    let name = Name::new(alloc, b"print")?;
    Ok(Item::Let(Pat::PAt(APat::PVar(name)), Simple::Fun(pattern, body)))
}

/// A variable.
fn variable(alloc: Global, name: &[u8]) -> Result<Atom, NoMemory>
    ensures { IfOk result (λ made. plain_atom made ≡ Val (name.now ∷ [])) }
{
    let mut path = Path::new(alloc);
    path.push(Name::new(alloc, name)?)?;
    Ok(Atom::Val(path))
}
