ghost use Rattle.std.specs.Prelude.{◌≡◌};
ghost use Rattle.tl_cases.specs.Rows.{value_at, IsNumbering};
ghost use Rattle.oc_rules.specs.Values.{values, value_rows};

use tl_cases::{Table, rows};

/// The row of a predefined value by its name, and None where OCaml predefines no such value for texts
/// (the OCaml manual, chapter 28). The name of `(!)` is the one byte `!`.
pub fn value_row(name: &[u8]) -> Option<u32>
    ensures row { result ≡ value_at name.now value_rows }
    ensures numbered { IsNumbering values value_rows }
{
    predefined().find(name)
}

/// The predefined values, each with its row.
fn predefined() -> Table<33>
    ensures { result ≡ value_rows }
{
    let values = rows![
        b"!" => 1,
        b"&&" => 30,
        b"*" => 14,
        b"+" => 12,
        b"-" => 13,
        b"/" => 15,
        b"::" => 32,
        b":=" => 28,
        b"<" => 23,
        b"<=" => 24,
        b"=" => 22,
        b"==" => 27,
        b">" => 25,
        b">=" => 26,
        b"Char.chr" => 11,
        b"Char.code" => 10,
        b"String.get" => 7,
        b"String.length" => 6,
        b"String.make" => 9,
        b"String.sub" => 8,
        b"^" => 29,
        b"land" => 17,
        b"lor" => 18,
        b"lsl" => 20,
        b"lsr" => 21,
        b"lxor" => 19,
        b"mod" => 16,
        b"not" => 3,
        b"print_string" => 4,
        b"raise" => 2,
        b"ref" => 0,
        b"string_of_int" => 5,
        b"||" => 31,
    ];
    Table::new(values).unwrap()
}
