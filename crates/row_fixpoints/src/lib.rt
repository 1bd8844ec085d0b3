// The rows of the least and greatest fixpoints.
#![tactic(auto)]

ghost use Rattle.std.specs.Prelude.{◌≡◌, ◌<◌, length};
ghost use Rattle.logic.specs.Truth.{Sequence, closed_sweep};
ghost use Rattle.row_words.specs.Row as rows;
ghost use Rattle.row_words.specs.Writing.{RowFor};

use connective_rows::write_connective;
use row_sweeps::sweep_words;
use row_tests::everywhere;
use row_words::connective::Connective;
use rows::write_constant;
use settled_rows::settled;
use sweep_values::value_at;

// The least or greatest fixpoint of: g now, or p now and the same at the next position. Its value at the loop start is what comes in
// at the end. Rows that hold everywhere and rows that are the goal's are most, and need no sweep.
pub fn write_fixpoint(
    row: &mut [u64],
    g: &[u64],
    p: &[u64],
    greatest: bool,
    positions: usize,
    start: usize,
)
    requires row_for { RowFor positions row.old }
    requires g_len { (length g.now ≡ length row.old) × (length p.now ≡ length row.old) × (start < positions) }
    ensures { (G P : Sequence)
        → g.now ≡ rows.row positions G
        → p.now ≡ rows.row positions P
        → row.new ≡ rows.row positions (closed_sweep positions start G P greatest) }
{
    let end = value_at(g, p, positions, start, greatest);
    if end && everywhere(g, p, positions) {
        write_constant(row, positions, true);
        return;
    }
    if settled(g, p, positions, end) {
        write_connective(row, Connective::Left, g, p, positions);
        return;
    }
    sweep_words(row, g, p, positions, end);
}
