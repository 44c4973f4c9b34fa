/// A row of a table: the bytes that are looked up, and what stands for them.
#[derive(Clone, Copy, Debug)]
pub struct Row {
    pub key: &'static [u8],
    pub value: u32,
}

/// Rows of a table, as `rows![b"key" => 0, ..]`, written where they are used.
#[macro_export]
macro_rules! rows {
    ($($key:expr => $value:expr),* $(,)?) => {
        &[$($crate::Row { key: $key, value: $value }),*]
    };
}
