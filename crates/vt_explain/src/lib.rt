//! Certificates: why the display changed hands in a journal, switch by switch. Finding, judging, printing and
//! reading them.
#![tactic(auto)]

mod cert_error;
mod certifying;
mod comparing;
mod error_text;
mod explained;
mod explaining;
mod hop_cause;
mod hop_why;
mod item_lines;
mod judged;
mod last_ask;
mod laws;
mod numbers;
mod parsing;
mod printing;
mod reader;

pub use cert_error::CertError;
pub use certifying::certificate;
pub use explained::Explained;
pub use explaining::{accept, explain};
pub use hop_cause::HopCause;
pub use hop_why::HopWhy;
pub use judged::Judged;
pub use laws::{certificates_explain, one_acceptance, one_cert};
pub use parsing::read_cert;
pub use printing::print_cert;
