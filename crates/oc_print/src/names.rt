ghost use Rattle.std.specs.Prelude.{◌≡◌, OnOk};
ghost use Rattle.oc_rules.specs.Bytes.{is_letter, heads, is_bang as spelled_bang, is_byte as spelled_byte};
ghost use Rattle.oc_layout.specs.Layout as layout;

use crate::pen::Pen;
use tl_text::{Name, NoMemory, Path};

/// Names with dots between.
pub fn path(pen: &mut Pen, path: &Path) -> Result<(), NoMemory>
    ensures { OnOk result (pen.new ≡ layout.path path.now pen.old) }
{
    match path.parts().split_first() {
        None => Ok(()),
        Some((first, rest)) => {
            pen.name(first.bytes())?;
            more_path(pen, rest)
        }
    }
}

/// Further names of a path, each behind a dot.
fn more_path(pen: &mut Pen, parts: &[Name]) -> Result<(), NoMemory>
    ensures { OnOk result (pen.new ≡ layout.more_path parts.now pen.old) }
{
    for part in parts {
        pen.glue();
        pen.mark(b".")?;
        pen.glue();
        pen.name(part.bytes())?;
    }
    Ok(())
}

/// The path of a value; the operator `!` stands in parentheses.
pub fn value(pen: &mut Pen, name: &Path) -> Result<(), NoMemory>
    ensures { OnOk result (pen.new ≡ layout.value name.now pen.old) }
{
    if is_bang(name.parts()) {
        pen.mark(b"(")?;
        pen.mark(b"!")?;
        pen.mark(b")")
    } else {
        path(pen, name)
    }
}

/// Whether this is the one name `!`.
fn is_bang(parts: &[Name]) -> bool
    ensures { result ≡ spelled_bang parts.now }
{
    match parts {
        [only] => is_byte(b'!', only.bytes()),
        _ => false,
    }
}

/// Whether the bytes are this one.
fn is_byte(byte: u8, bytes: &[u8]) -> bool
    ensures { result ≡ spelled_byte byte bytes.now }
{
    match bytes {
        [only] => *only == byte,
        _ => false,
    }
}

/// An operator: a word, or a mark.
pub fn operator(pen: &mut Pen, name: &Name) -> Result<(), NoMemory>
    ensures { OnOk result (pen.new ≡ layout.operator name.now pen.old) }
{
    let bytes = name.bytes();
    if begins_with_letter(bytes) {
        pen.name(bytes)
    } else {
        pen.mark(bytes)
    }
}

/// Whether a letter stands first.
fn begins_with_letter(bytes: &[u8]) -> bool
    ensures { result ≡ heads is_letter bytes.now }
{
    match bytes {
        [first, ..] => (*first >= b'a' && *first <= b'z') || (*first >= b'A' && *first <= b'Z'),
        [] => false,
    }
}

/// Type variables one after another.
pub fn tyvars(pen: &mut Pen, names: &[Name]) -> Result<(), NoMemory>
    ensures { OnOk result (pen.new ≡ layout.tyvars names.now pen.old) }
{
    for name in names {
        pen.tyvar(name.bytes())?;
    }
    Ok(())
}

/// The parameters of a type: none, one, or several in parentheses.
pub fn params(pen: &mut Pen, names: &[Name]) -> Result<(), NoMemory>
    ensures { OnOk result (pen.new ≡ layout.params names.now pen.old) }
{
    match names.split_first() {
        None => Ok(()),
        Some((first, rest)) => {
            if rest.is_empty() {
                return pen.tyvar(first.bytes());
            }
            pen.mark(b"(")?;
            pen.tyvar(first.bytes())?;
            more_params(pen, rest)?;
            pen.mark(b")")
        }
    }
}

/// Further parameters, each behind a comma.
fn more_params(pen: &mut Pen, names: &[Name]) -> Result<(), NoMemory>
    ensures { OnOk result (pen.new ≡ layout.more_params names.now pen.old) }
{
    for name in names {
        pen.mark(b",")?;
        pen.tyvar(name.bytes())?;
    }
    Ok(())
}
