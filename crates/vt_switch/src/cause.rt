use vt_base::CallerNo;

/// Why the display changed hands.
#[derive(Clone, Copy, Debug)]
pub enum Cause {
    /// The console that had it handles its switches itself (VT_AUTO).
    Free,
    /// The process that handles the console's switches let it go.
    Released(CallerNo),
    /// The process that handled the console's switches died.
    Died(CallerNo),
}
