// The normal-form step that hands the form back, as a part of the slice that has it.
#![tactic(auto)]

ghost use Rattle.std.specs.Prelude.{◌≡◌, length};
ghost use Rattle.table.specs.Frame.{form_of, handed, form_report};
ghost use Rattle.handed_form.specs.Handed.{handed_at};

use normal_form::form;
use table::answer::Form;
use table::settings::Limits;

// The form, handed back: a part of the source, which keeps its words, or the front part of the result; of a refusal an empty part, with its number and place.
// Of a slice that goes to the caller a contract says nothing at exit: what becomes of both is said by `form`.
pub fn normalise<'a>(
    limits: Limits,
    source: &'a mut [u32],
    res: &'a mut [u32],
    number: &mut u32,
    place: &mut usize,
) -> &'a mut [u32]
    ensures result_value { result.now ≡ handed limits source.old (length res.old) }
    ensures ref_ptr_value { result.ref_ptr ≡ handed_at (form_of limits source.old (length res.old)) source.entry.ref_ptr res.entry.ref_ptr }
    ensures number_after { number.new ≡ (form_report (form_of limits source.old (length res.old))).0 }
    ensures place_after { place.new ≡ (form_report (form_of limits source.old (length res.old))).1 }
{
    match form(limits, source, res) {
        Err(why) => {
            let report = reports::report_of(why);
            *number = report.0;
            *place = report.1;
            &mut res[0..0]
        }
        Ok(Form::Source(n)) => {
            *number = 0;
            *place = 0;
            &mut source[0..n]
        }
        Ok(Form::Made(n)) => {
            *number = 0;
            *place = 0;
            &mut res[0..n]
        }
    }
}
