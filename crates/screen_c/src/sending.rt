//! That a handle may go to another thread. Without the first function's bound nothing would prove it.
use crate::{ScreenHandle, ScreenLoan};

fn needs_send<T: Send>(_value: &T) {}

fn handle_is_sent(handle: &ScreenHandle) {
    needs_send(handle);
}

fn loan_is_sent(loan: &ScreenLoan) {
    needs_send(loan);
}
