//! That a keyboard's handle and loan may go to another thread. Without the first function's bound nothing would prove
//! it.
use crate::handle::KeysHandle;
use crate::loan::KeysLoan;

fn needs_send<T: Send>(_value: &T) {}

fn handle_is_sent(handle: &KeysHandle) {
    needs_send(handle);
}

fn loan_is_sent(loan: &KeysLoan) {
    needs_send(loan);
}
