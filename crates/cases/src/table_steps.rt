// The calls that check a table or make one of it: on slices that held a pattern, and what comes back. Each number that a call writes held 9.
use case_input::Case;
use case_output::{made, show, sum};
use refusals::Report;
use std::io;
use std::io::Write;

pub fn check<W: Write>(out: &mut W, case: &Case<'_>) -> io::Result<()> {
    let mut place: usize = 9;
    let refusal = table_calls::check(case.table, case.head.plain, case.head.limit, &mut place);
    show::answer(out, Report(refusal, place))
}

pub fn classify<W: Write>(out: &mut W, case: &Case<'_>) -> io::Result<()> {
    let mut bytes = [0xEEu8; 16400];
    let mut place: usize = 9;
    let room = case.head.room;
    if room <= bytes.len() {
        let refusal = table_calls::classify(case.table, &mut bytes[..room], &mut place);
        show::answer(out, Report(refusal, place))?;
        sum::whole(out, &bytes)?;
    }
    Ok(())
}

// What a call writes into a slice of so many words, the first of `room` of them lent to it.
fn shown<W: Write, F: FnOnce(&mut [u32], &mut usize, &mut usize) -> u32>(
    out: &mut W,
    lent: &mut [u32],
    room: usize,
    call: F,
) -> io::Result<()>
    requires { F.IsAlwaysCallable call }
{
    let mut words: usize = 9;
    let mut place: usize = 9;
    if room <= lent.len() {
        let refusal = call(&mut lent[..room], &mut words, &mut place);
        made::words(out, Report(refusal, place), words, lent)?;
    }
    Ok(())
}

// The listed words are the bytes of the text.
pub fn text<W: Write>(out: &mut W, case: &Case<'_>) -> io::Result<()> {
    let mut bytes = [0u8; 16400];
    let mut result = [0xEEEEEEEEu32; 520];
    let Some(text) = case_input::bytes(case.table, &mut bytes) else {
        return Ok(());
    };
    let limits = case.head.limits;
    shown(out, &mut result, case.head.room, |res, words, place| {
        text_call::text(text, limits.written, limits.fixpoints, res, words, place)
    })
}

pub fn plain<W: Write>(out: &mut W, case: &Case<'_>) -> io::Result<()> {
    let mut result = [0xEEEEEEEEu32; 520];
    let limits = case.head.limits;
    shown(out, &mut result, case.head.room, |res, words, place| {
        plain_call::plain(
            case.table,
            limits.written,
            limits.fixpoints,
            res,
            words,
            place,
        )
    })
}

pub fn dialect<W: Write>(out: &mut W, case: &Case<'_>) -> io::Result<()> {
    let mut result = [0xEEEEEEEEu32; 16400];
    shown(out, &mut result, case.head.room, |res, words, place| {
        step_calls::dialect(case.table, res, words, place)
    })
}

pub fn after<W: Write>(out: &mut W, case: &Case<'_>) -> io::Result<()> {
    let mut result = [0xEEEEEEEEu32; 16400];
    let head = &case.head;
    shown(out, &mut result, head.room, |res, words, place| {
        step_calls::after(case.table, head.sample(), head.driven, res, words, place)
    })
}

pub fn states<W: Write>(out: &mut W, case: &Case<'_>) -> io::Result<()> {
    let mut result = [0xEEEEEEEEu32; 16400];
    shown(out, &mut result, case.head.room, |res, words, place| {
        automaton_calls::states(case.table, res, words, place)
    })
}

pub fn moves<W: Write>(out: &mut W, case: &Case<'_>) -> io::Result<()> {
    let mut result = [0xEEEEEEEEu32; 16400];
    let head = &case.head;
    shown(out, &mut result, head.room, |res, words, place| {
        automaton_calls::moves(
            case.table,
            head.state(),
            head.sample(),
            head.driven,
            res,
            words,
            place,
        )
    })
}

// The form that is handed back, and both slices, of which the source keeps its words.
pub fn normal<W: Write>(out: &mut W, case: &Case<'_>) -> io::Result<()> {
    let mut source = [0u32; 16400];
    let mut result = [0xEEEEEEEEu32; 16400];
    let n = case.table.len();
    let room = case.head.room;
    if n <= source.len() && room <= result.len() {
        source[..n].copy_from_slice(case.table);
        handed(out, case, &mut source[..n], &mut result[..room])?;
        sum::whole(out, &source)?;
        sum::whole(out, &result)?;
    }
    Ok(())
}

fn handed<W: Write>(
    out: &mut W,
    case: &Case<'_>,
    source: &mut [u32],
    res: &mut [u32],
) -> io::Result<()> {
    let mut refusal: u32 = 9;
    let mut place: usize = 9;
    let part = handed_form::normalise(case.head.limits, source, res, &mut refusal, &mut place);
    show::answer(out, Report(refusal, place))?;
    sum::part(out, part)
}

pub fn form<W: Write>(out: &mut W, case: &Case<'_>) -> io::Result<()> {
    let mut plain = [0xEEEEEEEEu32; 520];
    let mut result = [0xEEEEEEEEu32; 16400];
    let room = case.head.room;
    let second = case.head.second;
    if room <= plain.len() && second <= result.len() {
        whole_way(out, case, &mut plain[..room], &mut result[..second])?;
        sum::whole(out, &plain)?;
        sum::whole(out, &result)?;
    }
    Ok(())
}

fn whole_way<W: Write>(
    out: &mut W,
    case: &Case<'_>,
    plain: &mut [u32],
    res: &mut [u32],
) -> io::Result<()> {
    let mut own = true;
    let mut words: usize = 9;
    let mut place: usize = 9;
    let refusal = form_calls::form(
        case.table,
        case.head.limits.written,
        case.head.limits.fixpoints,
        plain,
        res,
        &mut own,
        &mut words,
        &mut place,
    );
    made::form(out, Report(refusal, place), words, own)
}
