//! That a machine's handle and loan may go to another thread. Without the first function's bound nothing would prove
//! it.
use crate::handle::MachineHandle;
use crate::loan::MachineLoan;

fn needs_send<T: Send>(_value: &T) {}

fn handle_is_sent(handle: &MachineHandle) {
    needs_send(handle);
}

fn loan_is_sent(loan: &MachineLoan) {
    needs_send(loan);
}
