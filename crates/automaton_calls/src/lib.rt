// The calls of a watching automaton, in lent numbers: each function answers document 01's refusal number, 0 when the call is accepted, and
// writes the place to a lent number.
#![tactic(auto)]

ghost use Rattle.std.specs.Prelude.{◌≡◌, length};
ghost use Rattle.table.specs.Frame.{answer_of, result_of};
ghost use Rattle.automaton_steps.specs.Steps.{states_step, move_step};
ghost use Rattle.replies.specs.Replies.{TableReply};

use replies::table_reply;

// The states of the automaton of a plain table in Delta-2, at the front of the result.
pub fn states(table: &[u32], res: &mut [u32], words: &mut usize, place: &mut usize) -> u32
    ensures table_reply { TableReply
        (answer_of states_step table.now (length res.old))
        result words.new place.new }
    ensures res_after { res.new ≡ result_of states_step table.now res.old }
{
    table_reply(automaton_states::states(table, res), words, place)
}

// The table of the move of a state of it by a sample, or for state 0 of its start, at the front of the result.
pub fn moves(
    table: &[u32],
    state: usize,
    sample: u32,
    driven: usize,
    res: &mut [u32],
    words: &mut usize,
    place: &mut usize,
) -> u32
    ensures table_reply { TableReply
        (answer_of (move_step state sample driven) table.now (length res.old))
        result words.new place.new }
    ensures res_after { res.new ≡ result_of (move_step state sample driven) table.now res.old }
{
    table_reply(
        automaton_moves::moves(table, state, sample, driven, res),
        words,
        place,
    )
}
