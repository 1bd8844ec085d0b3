// What is answered of a form.

// Its source is the form, of so many words, or so many words were made.
#[derive(Clone, Copy)]
pub enum Form {
    Source(usize),
    Made(usize),
}
