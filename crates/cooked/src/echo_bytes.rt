use vt_base::ShortList;

/// The echo of one byte: at most 8 bytes.
pub type EchoBytes = ShortList<u8, 8>;
