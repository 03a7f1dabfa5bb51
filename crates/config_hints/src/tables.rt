ghost use Rattle.std.specs.Prelude.{◌≡◌, IfOk, option_map};
ghost use Rattle.toml.specs.Data.{no_members, get_member};
ghost use Rattle.toml.specs.View.{view, table_view};
ghost use Rattle.config_hints.specs.Tables.{file_of, point_at, table_at};

use guest_words::MemoryWant;
use std::alloc::Global;
use toml::{Table, Value};

/// The value of a key, if the table has it.
pub fn member<'a>(table: &'a Table, key: &str) -> Option<&'a Value>
    ensures { option_map (λ v. view v.now) result ≡ get_member key.now (table_view table.now) }
{
    table.get(key)
}

/// The table of the whole file, empty where it is no document.
pub fn read_file(alloc: Global, bytes: &[u8]) -> Result<Table, MemoryWant>
    ensures ok { IfOk result (λ file. table_view file ≡ file_of bytes.now) }
{
    let Ok(text) = str::from_utf8(bytes) else {
        return Ok(Table::new(alloc));
    };
    match toml::table_from_str(alloc, text) {
        Ok(file) => Ok(file),
        Err(error) if error.is_memory() => Err(MemoryWant),
        Err(_) => Ok(Table::new(alloc)),
    }
}

/// The table of the point of a number, if it is there.
fn point_at(file: &Table, number: u32) -> Option<&Table>
    ensures { option_map (λ t. table_view t.now) result ≡ point_at number (table_view file.now) }
{
    let points = member(file, "point")?;
    let point = points.get(number as usize)?;
    point.as_table()
}

/// The table of the whole file where there is no place, else that of a point, or the empty one.
pub fn table_at<'a>(file: &'a Table, empty: &'a Table, place: Option<u32>) -> &'a Table
    requires { table_view empty.now ≡ no_members }
    ensures { table_view result.now ≡ table_at place (table_view file.now) }
{
    match place {
        None => file,
        Some(number) => match point_at(file, number) {
            None => empty,
            Some(point) => point,
        },
    }
}
