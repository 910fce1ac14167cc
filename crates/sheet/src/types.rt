// The sheet and what always holds of it.
ghost use Rattle.std.specs.Prelude.{◌≡◌, ◌≤◌, length};
ghost use Rattle.history.specs.Notes.{Made};
ghost use Rattle.sheet.specs.Tables.{held, rows, Kept};

use crate::table::Table;

// The events of 1 to 8 stations. It has a fixed size and owns no memory.
#[derive(Drop)]
pub struct Sheet {
    pub(crate) table: Table,
    ghost some: { 1 ≤ length (rows table) },
    ghost few: { length (rows table) ≤ 8 },
    ghost made: { ∥ Made (held table) ∥₁ },
    ghost clocks: { ∥ Kept table ∥₁ },
}
