use vt_base::ShortList;

/// The bytes of a key, of which there are at most 512.
pub type KeyBytes = ShortList<u8, 512>;
