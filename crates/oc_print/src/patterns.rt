ghost use Rattle.std.specs.Prelude.{◌≡◌, OnOk, map};
ghost use Rattle.oc_ast.specs.View.{plain_apat, plain_pat, row_of_patterns};
ghost use Rattle.oc_layout.specs.Layout as layout;

use crate::names::path;
use crate::pen::Pen;
use oc_ast::{APat, Pat};
use tl_text::NoMemory;

/// A pattern that may stand as an argument.
#[cycle(patterns)]
pub fn apat(pen: &mut Pen, pattern: &APat) -> Result<(), NoMemory>
    ensures { OnOk result (pen.new ≡ layout.apat (plain_apat pattern.now) pen.old) }
{
    match pattern {
        APat::Any => pen.mark(b"_"),
        APat::PVar(name) => pen.name(name.bytes()),
        APat::PConst(lit) => pen.literal(lit),
        APat::PCon(name) => path(pen, name),
        APat::PUnit => brackets(pen, b"(", b")"),
        APat::PParen(inner) => {
            pen.mark(b"(")?;
            pat(pen, inner.get())?;
            pen.mark(b")")
        }
        APat::PTuple(first, rest) => {
            pen.mark(b"(")?;
            apat(pen, first.get())?;
            more_apats(pen, rest.items())?;
            pen.mark(b")")
        }
        APat::PNil => brackets(pen, b"[", b"]"),
        APat::PCell(inner) => {
            pen.mark(b"{")?;
            pen.name(b"contents")?;
            pen.mark(b"=")?;
            pat(pen, inner.get())?;
            pen.mark(b"}")
        }
    }
}

/// Two marks with nothing between.
pub fn brackets(pen: &mut Pen, open: &[u8], close: &[u8]) -> Result<(), NoMemory>
    ensures { OnOk result (pen.new ≡ layout.mark close.now (layout.mark open.now pen.old)) }
{
    pen.mark(open)?;
    pen.mark(close)
}

/// Further patterns, each behind a comma.
#[cycle(patterns)]
fn more_apats(pen: &mut Pen, patterns: &[APat]) -> Result<(), NoMemory>
    ensures { OnOk result (pen.new ≡ layout.more_apats (row_of_patterns (map plain_apat patterns.now)) pen.old) }
{
    for pattern in patterns {
        pen.mark(b",")?;
        apat(pen, pattern)?;
    }
    Ok(())
}

/// A pattern.
#[cycle(patterns)]
pub fn pat(pen: &mut Pen, pattern: &Pat) -> Result<(), NoMemory>
    ensures { OnOk result (pen.new ≡ layout.pat (plain_pat pattern.now) pen.old) }
{
    match pattern {
        Pat::PAt(inner) => apat(pen, inner),
        Pat::PBuild(name, inner) => {
            path(pen, name)?;
            apat(pen, inner.get())
        }
        Pat::PCons(first, rest) => {
            apat(pen, first.get())?;
            pen.mark(b"::")?;
            apat(pen, rest.get())
        }
        Pat::PAs(inner, name) => {
            apat(pen, inner.get())?;
            pen.name(b"as")?;
            pen.name(name.bytes())
        }
    }
}
