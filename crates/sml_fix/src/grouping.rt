ghost use Rattle.std.specs.Prelude.{◌≡◌, ◌+◌, ◌≤◌, ◌<◌, IfOk, Some, None, true, false};
ghost use Rattle.std.specs.Option.{option_map};
ghost use Rattle.readers.specs.Reader.{first, head_is, mapped, token_by};
ghost use Rattle.readers.specs.Given.{Gives};
ghost use Rattle.sml_fix.specs.declared.row.Group.{Group};
ghost use Rattle.sml_fix.specs.Fixities as settings_of;
ghost use Rattle.sml_fix.specs.Grouping as grouping;
ghost use Rattle.sml_fix.specs.Reading.{atoms_read, group_read, taken};
ghost use Rattle.sml_fix.specs.Reading as reading;
ghost use Rattle.sml_fix.specs.Resolution as spec;

use crate::fixities::{Fixities, Side};
use crate::row::{Cell, Group, Grown, Operator, Part};
use readers::{Code, Fixity, Floor, ReadError, judge, refusal};
use std::alloc::Global;
use tl_text::{Boxed, Fault, NoMemory, Refusal};

/// How deep groups may nest; for a deeper one there is no memory on the stack.
const MOST_NESTED: u32 = 4096;

/// How a row groups (the Definition, section 2.6).
///
/// # Errors
/// - FixityClash at the later of two neighbours that bind equally tight, one to the left and one to the right, where
///   each operator between them binds tighter.
/// - Grammar at an operator that has no atom before it.
/// - Of these two the one at the earlier part.
/// - NoMemory where none is left.
pub fn resolve(alloc: Global, row: &[Part], fix: &Fixities) -> Result<Group, Fault>
    requires whole { spec.ends_in_atom (spec.cells (settings_of.settings fix.now) row.now) ≡ true }
    // What is given is a group of the row.
    ensures found { IfOk result (λ g. spec.Groups (settings_of.settings fix.now) row.now g) }
    // A group of the row is given, unless memory runs out.
    ensures only { (g : Group) → spec.Groups (settings_of.settings fix.now) row.now g → spec.GivesGroup result g }
    // A refusal stands at the first part with which no group goes on, and its code says why.
    ensures refused { spec.RefusesAs (spec.Refused (settings_of.settings fix.now) row.now) result }
{
    let cells = cells(alloc, row, fix)?;
    match grouped(alloc, MOST_NESTED, Floor::ground(), &cells) {
        Ok((grown, _)) => Ok(grown.group),
        Err(error) => Err(fault(error)),
    }
}

/// The fault of a refused part. A row that ends with an atom is not refused at its end.
fn fault(error: ReadError<'_, Cell>) -> Fault
    ensures { spec.FaultOf error.entry result }
{
    match error {
        ReadError::Refused(Code::Grammar, [cell, ..]) => Fault::Refused(Refusal {
            place: cell.place,
            code: tl_text::Code::Grammar,
        }),
        ReadError::Refused(Code::FixityClash, [cell, ..]) => Fault::Refused(Refusal {
            place: cell.place,
            code: tl_text::Code::FixityClash,
        }),
        _ => Fault::NoMemory(NoMemory),
    }
}

/// The row as it is grouped.
fn cells(alloc: Global, row: &[Part], fix: &Fixities) -> Result<Vec<Cell>, NoMemory>
    ensures { IfOk result (λ v. v.items ≡ spec.cells (settings_of.settings fix.now) row.now) }
{
    let mut cells = Vec::new(alloc);
    let mut number: u32 = 0;
    for part in row {
        cells.push(Cell {
            number,
            op: status(fix, part),
            place: part.place,
        })?;
        number = match number.checked_add(1) {
            Some(next) => next,
            None => return Err(NoMemory),
        };
    }
    Ok(cells)
}

/// Its fixity, where the part is an operator.
fn status(fix: &Fixities, part: &Part) -> Option<Fixity>
    ensures { result ≡ spec.status (settings_of.settings fix.now) part.now.vid }
{
    match &part.vid {
        None => None,
        Some(vid) => match fix.get(vid) {
            None => None,
            Some((tight, Side::Left)) => Some(Fixity {
                tight,
                right: false,
            }),
            Some((tight, Side::Right)) => Some(Fixity { tight, right: true }),
        },
    }
}

fn is_atom(cells: &[Cell]) -> bool
    ensures { result ≡ head_is reading.is_atom (first cells.now) }
{
    match cells {
        [cell, ..] => cell.op.is_none(),
        [] => false,
    }
}

fn atom(cells: &[Cell]) -> Result<(u32, &[Cell]), ReadError<'_, Cell>>
    ensures { Gives (λ x. (x.0, x.1.now)) result (token_by grouping.atom cells.now) }
{
    match cells {
        [cell, rest @ ..] => match cell.op {
            None => Ok((cell.number, rest)),
            Some(_) => Err(ReadError::Refused(Code::Grammar, cells)),
        },
        [] => Err(ReadError::Refused(Code::Grammar, cells)),
    }
}

fn operator(cells: &[Cell]) -> Result<(Operator, &[Cell]), ReadError<'_, Cell>>
    ensures { Gives (λ x. (x.0, x.1.now)) result (token_by grouping.operator cells.now) }
{
    match cells {
        [cell, rest @ ..] => match cell.op {
            None => Err(ReadError::Refused(Code::Grammar, cells)),
            Some(fixity) => Ok((
                Operator {
                    number: cell.number,
                    fixity,
                },
                rest,
            )),
        },
        [] => Err(ReadError::Refused(Code::Grammar, cells)),
    }
}

/// Whether an operator comes that may follow on this floor.
fn is_taken(floor: Floor, cells: &[Cell]) -> bool
    ensures { result ≡ head_is (taken floor) (first cells.now) }
{
    match cells {
        [cell, ..] => match cell.op {
            None => false,
            Some(fixity) => floor.is_reached(fixity),
        },
        [] => false,
    }
}

/// One atom or more.
fn atoms(cells: &[Cell]) -> Result<(Grown, &[Cell]), ReadError<'_, Cell>>
    ensures { Gives (λ x. (x.0, x.1.now)) result (mapped grouping.apply_of atoms_read cells.now) }
{
    let (start, mut rest) = atom(cells)?;
    let mut end = after(start)?;
    'others: while is_atom(rest) {
        let (_, others) = atom(rest)?;
        end = after(end)?;
        rest = others;
    }
    let group = Group::Apply(start, end);
    Ok((
        Grown {
            group,
            top: None,
            height: 1,
        },
        rest,
    ))
}

/// The next number. NoMemory where it is too great.
fn after(number: u32) -> Result<u32, NoMemory>
    ensures { IfOk result (λ n. n ≡ number + 1) }
{
    match number.checked_add(1) {
        Some(next) => Ok(next),
        None => Err(NoMemory),
    }
}

fn top_fixity(grown: &Grown) -> Option<Fixity>
    ensures { result ≡ option_map (λ v. v.fixity) grown.now.top }
{
    match grown.top {
        None => None,
        Some(op) => Some(op.fixity),
    }
}

/// The height, and at least that of atoms.
fn tall(grown: &Grown) -> u32
    ensures { result ≡ grouping.tall grown.now }
{
    if grown.height == 0 { 1 } else { grown.height }
}

/// An operator between what it binds.
fn joined(alloc: Global, left: Grown, op: Operator, right: Grown) -> Result<Grown, NoMemory>
    ensures { IfOk result (λ x. x ≡ grouping.infix_of left op right) }
{
    let height = after(left.height.max(right.height))?;
    let left = Boxed::new(alloc, left.group)?;
    let right = Boxed::new(alloc, right.group)?;
    Ok(Grown {
        group: Group::Op(op.number, left, right),
        top: Some(op),
        height,
    })
}

/// The row that stands on this floor, as far as it goes.
fn grouped(
    alloc: Global,
    room: u32,
    floor: Floor,
    cells: &[Cell],
) -> Result<(Grown, &[Cell]), ReadError<'_, Cell>>
    ensures { Gives (λ x. (x.0, x.1.now)) result (group_read room false floor cells.now) }
{
    if room == 0 {
        return Err(ReadError::Refused(refusal(is_atom(cells)), cells));
    }
    let (mut found, mut rest) = atoms(cells)?;
    'operators: while is_taken(floor, rest) {
        let (op, inner) = operator(rest)?;
        if let Some(code) = judge(room - 1, floor, top_fixity(&found), tall(&found), op.fixity) {
            return Err(ReadError::Refused(code, rest));
        }
        let (right, others) = grouped(alloc, room - 1, op.fixity.floor(), inner)?;
        found = joined(alloc, found, op, right)?;
        rest = others;
    }
    Ok((found, rest))
}
