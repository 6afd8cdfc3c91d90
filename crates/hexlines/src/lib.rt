// Frame lines as text: upper-case hexadecimal, high digit first, and a line feed at the end.
#![tactic(auto)]

mod digits;
mod lines;
mod outputs;

// A writer: the output slice that it is lent, and the place of the next digit. The form is a rule of
// the project: document 01 names it.
#[derive(Drop)]
pub struct Writer<'a> {
    pub buf: &'a mut [u8],
    pub at: usize,
}
