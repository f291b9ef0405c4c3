// One side of a row's view laid into the table of an automaton, for those that read texts by it.
ghost use Rattle.std.specs.Prelude.{◌+◌, ◌*◌, ◌≤◌, length};
ghost use Rattle.pairs.specs.Room.{pair_words};
ghost use Rattle.pairs.specs.Table.{Bounded};
ghost use Rattle.clear.specs.Verdict.{Lays};

use crate::fill::fill_view;
use crate::side::Side;
use rows::Row;

// Lays one side of the view that the row says: the state 0 acts as the form of that side, and goes on at the row's
// length, which stops. The walk is the one that judges, so it wants the same room; what it finds is let go, and what the
// room holds afterwards is free.
pub fn lay(row: &Row, side: Side, table: &mut [u32], room: &mut [u32])
    requires table_long { 4 * length row.now.bytes.now ≤ length table.old }
    requires enough { 3 * pair_words (length row.now.bytes.now + 1) ≤ length room.old }
    ensures lays { Lays side row.now.bytes.now table.new }
    ensures bounded { Bounded (length row.now.bytes.now + 1) table.new }
{
    table.fill(0);
    let _ = fill_view(row, 0, row.bytes.len(), side, table, room);
}
