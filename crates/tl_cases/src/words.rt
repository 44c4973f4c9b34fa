ghost use Rattle.std.specs.Prelude.{◌≡◌};
ghost use Rattle.tl_cases.specs.Rows.{IsNumbering};
ghost use Rattle.tl_cases.specs.Words.{sml_list, sml_rows, oc_rows, symbol_list, symbol_rows};

use crate::{Table, rows};

/// The reserved words of Standard ML, each with its number (the Definition, sections 2.1 and 3.1).
pub fn sml_words() -> Table<58>
    ensures rows { result ≡ sml_rows }
    ensures numbered { IsNumbering sml_list result }
{
    let words = rows![
        b"#" => 57,
        b"(" => 40,
        b")" => 41,
        b"," => 46,
        b"->" => 55,
        b"..." => 50,
        b":" => 47,
        b":>" => 48,
        b";" => 49,
        b"=" => 53,
        b"=>" => 54,
        b"[" => 42,
        b"]" => 43,
        b"_" => 51,
        b"abstype" => 0,
        b"and" => 56,
        b"andalso" => 1,
        b"as" => 2,
        b"case" => 3,
        b"datatype" => 4,
        b"do" => 5,
        b"else" => 6,
        b"end" => 7,
        b"eqtype" => 31,
        b"exception" => 8,
        b"fn" => 9,
        b"fun" => 10,
        b"functor" => 32,
        b"handle" => 11,
        b"if" => 12,
        b"in" => 13,
        b"include" => 33,
        b"infix" => 14,
        b"infixr" => 15,
        b"let" => 16,
        b"local" => 17,
        b"nonfix" => 18,
        b"of" => 19,
        b"op" => 20,
        b"open" => 21,
        b"orelse" => 22,
        b"raise" => 23,
        b"rec" => 24,
        b"sharing" => 34,
        b"sig" => 35,
        b"signature" => 36,
        b"struct" => 37,
        b"structure" => 38,
        b"then" => 25,
        b"type" => 26,
        b"val" => 27,
        b"where" => 39,
        b"while" => 30,
        b"with" => 28,
        b"withtype" => 29,
        b"{" => 44,
        b"|" => 52,
        b"}" => 45,
    ];
    Table::new(words).unwrap()
}

/// The words of OCaml that are no names, each with its number (the manual, on lexical conventions).
pub fn oc_words() -> Table<57>
    ensures { result ≡ oc_rows }
{
    let words = rows![
        b"and" => 0,
        b"as" => 1,
        b"asr" => 2,
        b"assert" => 3,
        b"begin" => 4,
        b"class" => 5,
        b"constraint" => 6,
        b"do" => 7,
        b"done" => 8,
        b"downto" => 9,
        b"effect" => 10,
        b"else" => 11,
        b"end" => 12,
        b"exception" => 13,
        b"external" => 14,
        b"false" => 15,
        b"for" => 16,
        b"fun" => 17,
        b"function" => 18,
        b"functor" => 19,
        b"if" => 20,
        b"in" => 21,
        b"include" => 22,
        b"inherit" => 23,
        b"initializer" => 24,
        b"land" => 25,
        b"lazy" => 26,
        b"let" => 27,
        b"lor" => 28,
        b"lsl" => 29,
        b"lsr" => 30,
        b"lxor" => 31,
        b"match" => 32,
        b"method" => 33,
        b"mod" => 34,
        b"module" => 35,
        b"mutable" => 36,
        b"new" => 37,
        b"nonrec" => 38,
        b"object" => 39,
        b"of" => 40,
        b"open" => 41,
        b"or" => 42,
        b"private" => 43,
        b"rec" => 44,
        b"sig" => 45,
        b"struct" => 46,
        b"then" => 47,
        b"to" => 48,
        b"true" => 49,
        b"try" => 50,
        b"type" => 51,
        b"val" => 52,
        b"virtual" => 53,
        b"when" => 54,
        b"while" => 55,
        b"with" => 56,
    ];
    Table::new(words).unwrap()
}

/// The symbols of symbolic identifiers, each with its number (the Definition, section 2.4).
pub fn symbols() -> Table<20>
    ensures rows { result ≡ symbol_rows }
    ensures numbered { IsNumbering symbol_list result }
{
    let symbols = rows![
        b"!" => 0,
        b"#" => 4,
        b"$" => 3,
        b"%" => 1,
        b"&" => 2,
        b"*" => 19,
        b"+" => 5,
        b"-" => 6,
        b"/" => 7,
        b":" => 8,
        b"<" => 9,
        b"=" => 10,
        b">" => 11,
        b"?" => 12,
        b"@" => 13,
        b"\\" => 14,
        b"^" => 17,
        b"`" => 16,
        b"|" => 18,
        b"~" => 15,
    ];
    Table::new(symbols).unwrap()
}
