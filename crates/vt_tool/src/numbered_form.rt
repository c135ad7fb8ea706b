/// The commands whose words have two numbers after the name.
#[derive(Clone, Copy)]
pub(crate) enum NumberedForm {
    Screen,
    Drill,
    Review,
}
