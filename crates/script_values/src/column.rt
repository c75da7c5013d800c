// A column, whose rows a script's line gives.
ghost use Rattle.std.specs.Prelude.{◌≡◌};
ghost use Rattle.script_values.specs.Column.{column_of, columns_of};

use crate::filled::Filled;
use crate::narrow;
use script::{Item, Items};

// The name of the section before any word, and where two spaces meet.
const NO_WORD: u8 = 1;

// At most 257 rows.
pub type Column = Filled<u32, 257>;

impl Filled<u32, 257> {
    // The rows that follow a column's name on a line.
    #[tactic(auto, unfolding(crate::specs::Column::column_from))]
    pub fn of(line: &[u8], name: u8) -> Column
        ensures { result ≡ column_of line.now name }
    {
        let mut column = Filled::none(0);
        for item in Items::new(line) {
            match item {
                Item::Number { section, value, .. } if section.unwrap_or(NO_WORD) == name => {
                    column.push(narrow(value))
                }
                _ => {}
            }
        }
        column
    }
}

// The columns that a line gives.
#[derive(Clone, Copy)]
pub struct Columns {
    pub id: Column,
    pub l: Column,
    pub r: Column,
    pub q: Column,
}

impl Columns {
    pub fn of(line: &[u8]) -> Columns
        ensures { result ≡ columns_of line.now }
    {
        Columns {
            id: Column::of(line, b'i'),
            l: Column::of(line, b'l'),
            r: Column::of(line, b'r'),
            q: Column::of(line, b'q'),
        }
    }
}
