use crate::ReportText;

/// A side effect of a text.
#[derive(Debug, Default, Drop)]
pub enum Out {
    /// An answer to a request in the text, for the console's input.
    Report(ReportText),
    /// A request to bring a console to the front, by its number.
    SwitchTo(u8),
    /// A request to bring the previous console to the front.
    SwitchLast,
    /// DECLL: the keyboard's lights, Scroll Lock 1, Num Lock 2, Caps Lock 4.
    Lights(u8),
    /// BEL. It is the default, which fills the unused places of a list of side effects.
    #[default]
    Bell,
}
