ghost use Rattle.std.specs.Prelude.{◌≡◌, ◌+◌, ◌≤◌};
ghost use Rattle.readers.specs.Reader.{both, close, first, head_is, mapped};
ghost use Rattle.readers.specs.Forms.{enclosed, seps};
ghost use Rattle.readers.specs.Given.{Gives, Inside as Nests};
ghost use Rattle.sml_grammar.specs.Words.{CLOSE_BRACE as CLOSES_FIELDS, CLOSE_PAREN as CLOSES_PAREN, COMMA as SEPARATES};
ghost use Rattle.sml_grammar.specs.Tokens.{is, is_times, labels, tokens_of};
ghost use Rattle.sml_grammar.specs.Types as grammar;
ghost use Rattle.sml_grammar.specs.ReadTypes as read;
ghost use Rattle.sml_parse_ty.specs.Rows as rows;

use crate::tree::{applied, arrow, higher, paren, put_into, tupled};
use readers::{Code, ReadError, refusal};
use sml_ast::{Label, Ty};
use sml_lex::Token;
use sml_scan::{
    above, behind, behind_times, is_label, is_long_tycon, is_next, is_times, is_tyvar, long_tycon,
    place_of, record_label, type_variable,
};
use std::alloc::Global;
use tl_text::{Boxed, List, Place};

const ARROW: u32 = 55;

const CLOSE_BRACE: u32 = 45;

const CLOSE_PAREN: u32 = 41;

const COLON: u32 = 47;

const COMMA: u32 = 46;

const OPEN_BRACE: u32 = 44;

const OPEN_PAREN: u32 = 40;

/// What was read, and the tokens behind it.
pub type Read<'a, T> = Result<(T, &'a [Token]), ReadError<'a, Token>>;

fn begins_ty(tokens: &[Token]) -> bool
    ensures { result ≡ head_is read.begins_ty (first tokens.now) }
{
    (is_tyvar(tokens) || is_long_tycon(tokens))
        || (is_next(OPEN_BRACE, tokens) || is_next(OPEN_PAREN, tokens))
}

/// The forms of types, over the reader of the types that stand inside.
#[derive(Clone, Copy)]
struct Inside<F> {
    alloc: Global,
    /// How high the types inside may be.
    most: u32,
    ty: F,
}

impl<'a, F: Fn(Global, u32, &'a [Token]) -> Read<'a, (Boxed<Ty>, u32)>> Inside<F> {
    /// A type that stands inside.
    fn ty(&self, room: u32, tokens: &'a [Token]) -> Read<'a, (Boxed<Ty>, u32)>
        requires nests { Nests (λ r. read.ty_read r) self.now.most (F.pre self.now.ty) (F.post self.now.ty) }
        requires low { room ≤ self.now.most }
        ensures { Gives (λ x. (x.0, x.1.now)) result (read.ty_read room tokens.now) }
    {
        (self.ty)(self.alloc, room, tokens)
    }

    /// `a : t`
    fn field(&self, room: u32, tokens: &'a [Token]) -> Read<'a, (Label, (Boxed<Ty>, u32))>
        requires nests { Nests (λ r. read.ty_read r) self.now.most (F.pre self.now.ty) (F.post self.now.ty) }
        requires low { room ≤ self.now.most }
        ensures { Gives (λ x. (x.0, x.1.now)) result (read.field_read (read.ty_read room) tokens.now) }
    {
        let (label, rest) = record_label(self.alloc, tokens)?;
        let rest = behind(COLON, rest)?;
        let (ty, rest) = self.ty(room, rest)?;
        Ok(((label, ty), rest))
    }

    /// One field or more.
    fn fields(&self, room: u32, tokens: &'a [Token]) -> Read<'a, (List<(Label, Ty)>, u32)>
        requires nests { Nests (λ r. read.ty_read r) self.now.most (F.pre self.now.ty) (F.post self.now.ty) }
        requires low { room ≤ self.now.most }
        ensures { Gives (λ x. (x.0, x.1.now)) result (mapped rows.fields (seps (is SEPARATES) (read.field_read (read.ty_read room))) tokens.now) }
    {
        let (first, mut rest) = self.field(room, tokens)?;
        let mut found = List::new(self.alloc);
        let mut height = first.1.1;
        found.push((first.0, first.1.0.into_inner()))?;
        'items: while is_next(COMMA, rest) {
            let after = behind(COMMA, rest)?;
            let (other, after) = self.field(room, after)?;
            height = higher(height, other.1.1);
            found.push((other.0, other.1.0.into_inner()))?;
            rest = after;
        }
        Ok(((found, height), rest))
    }

    /// One type or more, with commas between.
    fn tys(&self, room: u32, tokens: &'a [Token]) -> Read<'a, (List<Ty>, u32)>
        requires nests { Nests (λ r. read.ty_read r) self.now.most (F.pre self.now.ty) (F.post self.now.ty) }
        requires low { room ≤ self.now.most }
        ensures { Gives (λ x. (x.0, x.1.now)) result (mapped rows.tys (seps (is SEPARATES) (read.ty_read room)) tokens.now) }
    {
        let (first, mut rest) = self.ty(room, tokens)?;
        let mut found = List::new(self.alloc);
        let mut height = first.1;
        found.push(first.0.into_inner())?;
        'items: while is_next(COMMA, rest) {
            let after = behind(COMMA, rest)?;
            let (other, after) = self.ty(room, after)?;
            height = higher(height, other.1);
            found.push(other.0.into_inner())?;
            rest = after;
        }
        Ok(((found, height), rest))
    }

    /// The parts of a tuple type behind the first star.
    fn parts(&self, room: u32, tokens: &'a [Token]) -> Read<'a, (List<Ty>, u32)>
        requires nests { Nests (λ r. read.ty_read r) self.now.most (F.pre self.now.ty) (F.post self.now.ty) }
        requires low { room ≤ self.now.most }
        ensures { Gives (λ x. (x.0, x.1.now)) result (mapped rows.tys (seps is_times (read.con_read room)) tokens.now) }
    {
        let (first, mut rest) = self.con(room, tokens)?;
        let mut found = List::new(self.alloc);
        let mut height = first.1;
        found.push(first.0.into_inner())?;
        'items: while is_times(rest) {
            let after = behind_times(rest)?;
            let (other, after) = self.con(room, after)?;
            height = higher(height, other.1);
            found.push(other.0.into_inner())?;
            rest = after;
        }
        Ok(((found, height), rest))
    }

    /// Behind an opening brace.
    fn record(&self, place: Place, room: u32, tokens: &'a [Token]) -> Read<'a, (Boxed<Ty>, u32)>
        requires nests { Nests (λ r. read.ty_read r) self.now.most (F.pre self.now.ty) (F.post self.now.ty) }
        requires low { room ≤ self.now.most }
        ensures { Gives (λ x. (x.0, x.1.now)) result (mapped (λ x. grammar.fields_of (place, x)) (enclosed (tokens_of labels) 1 (is SEPARATES) (read.field_read (read.ty_read room)) (is CLOSES_FIELDS) room) tokens.now) }
    {
        if is_next(CLOSE_BRACE, tokens) {
            let rest = behind(CLOSE_BRACE, tokens)?;
            let empty = Ty::TFields(place, List::new(self.alloc));
            return Ok(((Boxed::new(self.alloc, empty)?, 1), rest));
        }
        if !is_label(tokens) {
            return Err(ReadError::Refused(Code::Grammar, tokens));
        }
        if room == 0 {
            return Err(ReadError::Refused(Code::Depth, tokens));
        }
        let ((found, height), rest) = self.fields(room, tokens)?;
        let rest = behind(CLOSE_BRACE, rest)?;
        let height = above(height, 0)?;
        Ok((
            (Boxed::new(self.alloc, Ty::TFields(place, found))?, height),
            rest,
        ))
    }

    /// Behind the comma of arguments in parentheses.
    fn args(&self, room: u32, tokens: &'a [Token]) -> Read<'a, (List<Ty>, u32)>
        requires nests { Nests (λ r. read.ty_read r) self.now.most (F.pre self.now.ty) (F.post self.now.ty) }
        requires low { room ≤ self.now.most }
        ensures { Gives (λ x. (x.0, x.1.now)) result (mapped rows.tys (close (seps (is SEPARATES) (read.ty_read room)) (is CLOSES_PAREN)) tokens.now) }
    {
        let (found, rest) = self.tys(room, tokens)?;
        let rest = behind(CLOSE_PAREN, rest)?;
        Ok((found, rest))
    }

    /// Behind an opening parenthesis.
    fn paren(&self, place: Place, room: u32, tokens: &'a [Token]) -> Read<'a, (Boxed<Ty>, u32)>
        requires nests { Nests (λ r. read.ty_read r) self.now.most (F.pre self.now.ty) (F.post self.now.ty) }
        requires low { room ≤ self.now.most }
        ensures { Gives (λ x. (x.0, x.1.now)) result (mapped (λ x. grammar.paren_of (place, x)) (both (read.ty_read room) (read.behind_read (read.ty_read room))) tokens.now) }
    {
        let (first, rest) = self.ty(room, tokens)?;
        if is_next(CLOSE_PAREN, rest) {
            let rest = behind(CLOSE_PAREN, rest)?;
            return Ok((paren(self.alloc, place, first)?, rest));
        }
        let rest = behind(COMMA, rest)?;
        let (others, rest) = self.args(room, rest)?;
        let (name, rest) = long_tycon(self.alloc, rest)?;
        Ok((put_into(self.alloc, place, first, others, name)?, rest))
    }

    /// A type that begins with no other one.
    fn atom(&self, room: u32, tokens: &'a [Token]) -> Read<'a, (Boxed<Ty>, u32)>
        requires nests { Nests (λ r. read.ty_read r) self.now.most (F.pre self.now.ty) (F.post self.now.ty) }
        requires low { room ≤ self.now.most }
        ensures { Gives (λ x. (x.0, x.1.now)) result (read.atom_level (read.ty_read room) room tokens.now) }
    {
        if is_tyvar(tokens) {
            let (name, rest) = type_variable(self.alloc, tokens)?;
            return Ok(((Boxed::new(self.alloc, Ty::Tyvar(name.0, name))?, 1), rest));
        }
        if is_long_tycon(tokens) {
            let (name, rest) = long_tycon(self.alloc, tokens)?;
            let con = Ty::TCon(name.0, List::new(self.alloc), name);
            return Ok(((Boxed::new(self.alloc, con)?, 1), rest));
        }
        if is_next(OPEN_BRACE, tokens) {
            let (place, rest) = place_of(OPEN_BRACE, tokens)?;
            return self.record(place, room, rest);
        }
        if !is_next(OPEN_PAREN, tokens) {
            return Err(ReadError::Refused(Code::Grammar, tokens));
        }
        if room == 0 {
            return Err(ReadError::Refused(Code::Depth, tokens));
        }
        let (place, rest) = place_of(OPEN_PAREN, tokens)?;
        self.paren(place, room, rest)
    }

    /// `t c d`: a type and the constructors behind it.
    fn con_level(&self, room: u32, tokens: &'a [Token]) -> Read<'a, (Boxed<Ty>, u32)>
        requires nests { Nests (λ r. read.ty_read r) self.now.most (F.pre self.now.ty) (F.post self.now.ty) }
        requires low { room ≤ self.now.most }
        ensures { Gives (λ x. (x.0, x.1.now)) result (read.con_level (read.ty_read room) room tokens.now) }
    {
        let (mut found, mut rest) = self.atom(room, tokens)?;
        'names: while is_long_tycon(rest) {
            if room < found.1 {
                return Err(ReadError::Refused(Code::Depth, rest));
            }
            let (name, after) = long_tycon(self.alloc, rest)?;
            found = applied(self.alloc, found, name)?;
            rest = after;
        }
        Ok((found, rest))
    }

    /// A type that is no tuple and no arrow.
    #[tactic(auto, unfolding(sml_grammar::specs::ReadTypes::con_read))]
    fn con(&self, room: u32, tokens: &'a [Token]) -> Read<'a, (Boxed<Ty>, u32)>
        requires nests { Nests (λ r. read.ty_read r) self.now.most (F.pre self.now.ty) (F.post self.now.ty) }
        requires low { room ≤ self.now.most + 1 }
        ensures { Gives (λ x. (x.0, x.1.now)) result (read.con_read room tokens.now) }
    {
        if room == 0 {
            return Err(ReadError::Refused(refusal(begins_ty(tokens)), tokens));
        }
        self.con_level(room - 1, tokens)
    }

    /// `t * u * v`
    fn tuple_level(&self, room: u32, tokens: &'a [Token]) -> Read<'a, (Boxed<Ty>, u32)>
        requires nests { Nests (λ r. read.ty_read r) self.now.most (F.pre self.now.ty) (F.post self.now.ty) }
        requires low { room ≤ self.now.most }
        ensures { Gives (λ x. (x.0, x.1.now)) result (read.tuple_level (read.ty_read room) (read.con_read room) room tokens.now) }
    {
        let (first, rest) = self.con_level(room, tokens)?;
        if !is_times(rest) {
            return Ok((first, rest));
        }
        if room < first.1.max(1) {
            return Err(ReadError::Refused(Code::Depth, rest));
        }
        let rest = behind_times(rest)?;
        let (others, rest) = self.parts(room, rest)?;
        Ok((tupled(self.alloc, first, others)?, rest))
    }

    /// `t -> u`
    fn whole(&self, room: u32, tokens: &'a [Token]) -> Read<'a, (Boxed<Ty>, u32)>
        requires nests { Nests (λ r. read.ty_read r) self.now.most (F.pre self.now.ty) (F.post self.now.ty) }
        requires low { room ≤ self.now.most }
        ensures { Gives (λ x. (x.0, x.1.now)) result (read.ty_level (read.ty_read room) (read.con_read room) room tokens.now) }
    {
        let (from, rest) = self.tuple_level(room, tokens)?;
        if !is_next(ARROW, rest) {
            return Ok((from, rest));
        }
        if room < from.1.max(1) {
            return Err(ReadError::Refused(Code::Depth, rest));
        }
        let rest = behind(ARROW, rest)?;
        let (to, rest) = self.ty(room, rest)?;
        Ok((arrow(self.alloc, from, to)?, rest))
    }
}

/// The type that is next, of at most this height, as far as the tokens go on with it. It is on the heap from the start, so that a
/// level of nesting takes little of the stack.
///
/// # Errors
/// Grammar, Depth at the first token with which no type goes on. NoMemory where none is left.
#[tactic(auto, unfolding(sml_grammar::specs::ReadTypes::ty_read))]
pub fn ty<'a>(alloc: Global, room: u32, tokens: &'a [Token]) -> Read<'a, (Boxed<Ty>, u32)>
    ensures { Gives (λ x. (x.0, x.1.now)) result (read.ty_read room tokens.now) }
{
    if room == 0 {
        return Err(ReadError::Refused(refusal(begins_ty(tokens)), tokens));
    }
    Inside {
        alloc,
        most: room - 1,
        ty,
    }
    .whole(room - 1, tokens)
}
