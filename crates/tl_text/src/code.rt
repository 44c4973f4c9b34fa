ghost use Rattle.std.specs.Prelude.{◌≡◌};
ghost use Rattle.tl_text.specs.Codes.{number_of, text_of};

use std::fmt;

/// Why a source is refused.
#[derive(Clone, Copy, Debug, PartialEq, Eq)]
pub enum Code {
    BadToken,
    BadEscape,
    OpenComment,
    OpenString,
    LiteralRange,
    RealLiteral,
    SourceSize,
    TotalSize,
    NameLength,
    Depth,
    Grammar,
    FixityClash,
    Repeated,
    Rebinds,
    RecNotFn,
    Clauses,
    TyvarScope,
    Unbound,
    NotTyped,
    FlexRow,
    FreeTyvar,
    TypeSize,
    NoMatch,
    Sharing,
    WhereType,
    ExnTyvar,
    ConsArg,
    RefutablePoly,
    EqPattern,
    EqValue,
    DataSharing,
    DataWhere,
    Abstype,
    TopExp,
    Stamps,
    Unbuilt,
}

/// The number of a code, as messages show it.
pub fn code_number(code: Code) -> u8
    ensures { result ≡ number_of code }
{
    match code {
        Code::BadToken => 1,
        Code::BadEscape => 2,
        Code::OpenComment => 3,
        Code::OpenString => 4,
        Code::LiteralRange => 5,
        Code::RealLiteral => 6,
        Code::SourceSize => 7,
        Code::TotalSize => 8,
        Code::NameLength => 9,
        Code::Depth => 10,
        Code::Grammar => 11,
        Code::FixityClash => 12,
        Code::Repeated => 13,
        Code::Rebinds => 14,
        Code::RecNotFn => 15,
        Code::Clauses => 16,
        Code::TyvarScope => 17,
        Code::Unbound => 18,
        Code::NotTyped => 19,
        Code::FlexRow => 20,
        Code::FreeTyvar => 21,
        Code::TypeSize => 22,
        Code::NoMatch => 23,
        Code::Sharing => 24,
        Code::WhereType => 25,
        Code::ExnTyvar => 26,
        Code::ConsArg => 27,
        Code::RefutablePoly => 28,
        Code::EqPattern => 29,
        Code::EqValue => 30,
        Code::DataSharing => 31,
        Code::DataWhere => 32,
        Code::Abstype => 33,
        Code::TopExp => 34,
        Code::Stamps => 35,
        Code::Unbuilt => 36,
    }
}

/// The text of a code, as messages show it.
pub fn code_text(code: Code) -> &'static str
    ensures { result.now ≡ text_of code }
{
    match code {
        Code::BadToken => "no token begins here",
        Code::BadEscape => "bad escape",
        Code::OpenComment => "comment is not closed",
        Code::OpenString => "string is not closed",
        Code::LiteralRange => "literal out of range",
        Code::RealLiteral => "real literals are not supported",
        Code::SourceSize => "source is too large",
        Code::TotalSize => "sources are too large together",
        Code::NameLength => "name is too long",
        Code::Depth => "nesting is too deep",
        Code::Grammar => "syntax error",
        Code::FixityClash => "operators of one precedence associate differently",
        Code::Repeated => "bound twice",
        Code::Rebinds => "this identifier cannot be bound",
        Code::RecNotFn => "val rec binds a variable to fn",
        Code::Clauses => "clauses do not agree",
        Code::TyvarScope => "type variable out of scope",
        Code::Unbound => "unbound identifier",
        Code::NotTyped => "no typing",
        Code::FlexRow => "flexible record is not determined",
        Code::FreeTyvar => "type variables stay free",
        Code::TypeSize => "type is too large",
        Code::NoMatch => "structure does not match signature",
        Code::Sharing => "types cannot be shared",
        Code::WhereType => "type cannot be realised",
        Code::ExnTyvar => "exception type has a type variable",
        Code::ConsArg => "pattern :: needs a pair",
        Code::RefutablePoly => "refutable pattern would be polymorphic",
        Code::EqPattern => "pattern would generalise equality",
        Code::EqValue => "equality-polymorphic value outside fn",
        Code::DataSharing => "datatype cannot be shared here",
        Code::DataWhere => "datatype cannot be realised so",
        Code::Abstype => "abstype is not supported",
        Code::TopExp => "top-level expression is not supported",
        Code::Stamps => "too many type names",
        Code::Unbuilt => "not supported yet",
    }
}

impl fmt::Display for Code {
    fn fmt<W: fmt::Write>(&self, f: &mut fmt::Formatter<W>) -> fmt::Result {
        f.write_str(code_text(*self))
    }
}
