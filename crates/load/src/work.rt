// The columns that rows are read into, as long as columns may be: no heap, and four arrays, not one of rows, since the check takes columns.
ghost use Rattle.std.specs.Prelude.{◌≡◌, ◌<◌};
ghost use Rattle.rules.specs.Capacities.{row_capacity};
ghost use Rattle.load.specs.Work.{work_columns, set_row};

use rules::ROW_CAPACITY;
use table::Row;

#[derive(Clone, Copy)]
pub(crate) struct Work {
    pub(crate) id: [u32; ROW_CAPACITY],
    pub(crate) l: [u32; ROW_CAPACITY],
    pub(crate) r: [u32; ROW_CAPACITY],
    pub(crate) q: [u32; ROW_CAPACITY],
}

impl Work {
    pub(crate) fn new() -> Work {
        Work {
            id: [0; ROW_CAPACITY],
            l: [0; ROW_CAPACITY],
            r: [0; ROW_CAPACITY],
            q: [0; ROW_CAPACITY],
        }
    }

    // Row i becomes this one.
    pub(crate) fn set(&mut self, i: usize, row: Row)
        requires { i < row_capacity }
        ensures { work_columns self.new ≡ set_row (work_columns self.old) i row }
    {
        self.id[i] = row.id;
        self.l[i] = row.l;
        self.r[i] = row.r;
        self.q[i] = row.q;
    }
}
