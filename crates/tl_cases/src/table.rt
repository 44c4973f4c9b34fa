ghost use Rattle.std.specs.Prelude.{◌≡◌, ◌<◌, Some, None, if◌then◌else◌, slice_index_or, length};
ghost use Rattle.tl_cases.specs.Rows.{pairs_of, pair_of, is_increasing, value_at};

use crate::Row;
use std::marker::Model;

/// Rows whose keys increase by their bytes. Contracts see the list of rows, each a key and a value.
#[derive(Debug, Drop)]
pub struct Table<const N: usize> {
    rows: &'static [Row],
}

impl<const N: usize> Model for Table<N> {
    ghost use Rattle.std.specs.Prelude.{List, ℕ, ◌≡◌, true, length};
    ghost use Rattle.tl_cases.specs.Rows.{pairs_of, is_increasing};

    ghost Value = { List (List ℕ × ℕ) };

    ghost view = { λ t. pairs_of t.rows.now };

    ghost invariant = { λ t. (length t.rows.now ≡ N) × (is_increasing (pairs_of t.rows.now) ≡ true) };
}

impl<const N: usize> Table<N> {
    /// The table of these rows. None exactly where their keys do not increase strictly by bytes.
    pub fn new(rows: &'static [Row]) -> Option<Table<N>>
        requires { length rows.now ≡ N }
        ensures { result ≡ (if is_increasing (pairs_of rows.now) then Some (pairs_of rows.now) else None) }
    {
        if rows.is_sorted_by(|a, b| a.key.cmp(b.key).is_lt()) {
            Some(Table { rows })
        } else {
            None
        }
    }

    /// The value of the key. None exactly where no row has it.
    pub fn find(&self, key: &[u8]) -> Option<u32>
        ensures { result ≡ value_at key.now self.now }
    {
        match self.rows.binary_search_by(|row| row.key.cmp(key)) {
            Ok(i) => Some(self.rows[i].value),
            Err(_) => None,
        }
    }

    /// The row number `i`, from 0.
    pub fn at(&self, i: usize) -> Row
        requires { i < N }
        ensures { pair_of result ≡ slice_index_or self.now i (pair_of result) }
    {
        let rows = self.rows;
        rows[i]
    }
}
