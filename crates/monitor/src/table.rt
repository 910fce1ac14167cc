// The table automaton and what always holds of it.
ghost use Rattle.std.specs.Prelude.{◌≡◌, true};
ghost use Rattle.monitor.specs.Tables.{description, lawful_table};

use crate::parts::Parts;

// A lawful table.
#[derive(Clone, Copy)]
pub struct Table<'a> {
    pub(crate) parts: Parts<'a>,
    ghost lawful: { lawful_table (description parts) ≡ true },
}
