/// The most names that a client may say.
pub(crate) const NAME_LIMIT: usize = 128;

/// The most bytes that may spell its properties.
pub(crate) const BYTE_LIMIT: usize = 16_384;
