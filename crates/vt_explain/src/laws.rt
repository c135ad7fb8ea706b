//! Laws of certificates.
ghost use Rattle.vt_explain.specs.Accepting.{OneAcceptance};
ghost use Rattle.vt_explain.specs.CertText.{OneCert, PrintedIsRead, ReadIsPrinted};
ghost use Rattle.vt_explain.specs.Certificates.{CertificatesAreGood, CertificatesExplain, OneCertificate, OneFirstBad};

/// A certificate proves the display law of its history, and is the only one.
pub fn certificates_explain()
    ensures explain { CertificatesExplain }
    ensures one { OneCertificate }
    ensures bad { OneFirstBad }
    ensures apart { CertificatesAreGood }
{}

/// A list of items has one judgement.
pub fn one_acceptance()
    ensures { OneAcceptance }
{}

/// A text is one certificate or has one fault. Reading a printed certificate gives it again, and no other text is
/// read as one.
pub fn one_cert()
    ensures one { OneCert }
    ensures printed { PrintedIsRead }
    ensures read { ReadIsPrinted }
{}
