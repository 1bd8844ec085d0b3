// The answers of the steps that make words as lent numbers: document 01's refusal number, 0 when the call is accepted, its place, and what was made.
#![tactic(auto)]

ghost use Rattle.replies.specs.Replies.{TableReply, FormReply};

use outcome_replies::reply;
use refusals::Refusal;
use table::answer::Form;

// How many words a table has, or the refusal, in lent numbers.
pub fn table_reply(a: Result<usize, Refusal>, words: &mut usize, place: &mut usize) -> u32
    ensures { TableReply a result words.new place.new }
{
    *words = a.unwrap_or(0);
    reply(a.map(|_| ()), place)
}

// Whether a form is its source and how many words it has, or the refusal, in lent numbers.
pub fn form_reply(
    f: Result<Form, Refusal>,
    own: &mut bool,
    words: &mut usize,
    place: &mut usize,
) -> u32
    ensures { FormReply f result own.new words.new place.new }
{
    let (source, length) = match f {
        Ok(Form::Source(n)) => (true, n),
        Ok(Form::Made(n)) => (false, n),
        Err(_) => (false, 0),
    };
    *own = source;
    *words = length;
    reply(f.map(|_| ()), place)
}
