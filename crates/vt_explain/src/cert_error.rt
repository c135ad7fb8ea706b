ghost use Rattle.std.specs.Prelude.{◌≡◌};
ghost use Rattle.vt_explain.specs.declared.cert_error.CertError.TheVariants as errors;

use vt_base::NoMemory;

/// The error of reading a certificate's text.
#[derive(Clone, Copy, Debug, PartialEq, Eq)]
pub enum CertError {
    /// The text is not a certificate.
    Fault {
        /// The first line that isn't well formed, counted from 1, or the last line if there are too few or
        /// too many lines.
        line: u32,
    },
    /// Memory ran out.
    NoMemory,
}

impl From<NoMemory> for CertError {
    ghost from_gives = { λ _ e. e ≡ errors.NoMemory };

    fn from(_error: NoMemory) -> CertError {
        CertError::NoMemory
    }
}
