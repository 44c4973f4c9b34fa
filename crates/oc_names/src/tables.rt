ghost use Rattle.std.specs.Prelude.{◌≡◌};
ghost use Rattle.oc_names.specs.Mangled.{base_rows, fixed_rows, own_rows};

use tl_cases::{Table, rows};

/// Types that every text of OCaml has by its own.
pub fn base_types() -> Table<12>
    ensures { result ≡ base_rows }
{
    let names = rows![
        b"array" => 0,
        b"bool" => 1,
        b"bytes" => 2,
        b"char" => 3,
        b"exn" => 4,
        b"float" => 5,
        b"int" => 6,
        b"list" => 7,
        b"option" => 8,
        b"ref" => 9,
        b"string" => 10,
        b"unit" => 11,
    ];
    Table::new(names).unwrap()
}

/// Constructors of Standard ML whose meaning no program changes.
pub fn fixed_constructors() -> Table<5>
    ensures { result ≡ fixed_rows }
{
    let names = rows![
        b"::" => 0,
        b"false" => 1,
        b"nil" => 2,
        b"ref" => 3,
        b"true" => 4,
    ];
    Table::new(names).unwrap()
}

/// Modules that texts take from OCaml, and the runtime.
pub fn own_modules() -> Table<3>
    ensures { result ≡ own_rows }
{
    let names = rows![
        b"Char" => 0,
        b"Rt" => 1,
        b"String" => 2,
    ];
    Table::new(names).unwrap()
}
