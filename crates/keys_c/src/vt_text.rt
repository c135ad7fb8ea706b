/// A text that a keymap may include, and its name.
#[repr(C)]
#[derive(Drop)]
pub(crate) struct VtText<'a> {
    pub name: &'a [u8],
    pub text: &'a [u8],
}
