//! Why bytes are not read, and why they are not written.
use thiserror::Error;

/// What is wrong with bytes, whatever their format.
#[derive(Debug, Drop, Error)]
pub enum WireFault {
    #[error("no file of this kind and of a known version")]
    Magic,
    #[error("the bytes end within a field")]
    Truncated,
    #[error("a text is not UTF-8")]
    NotUtf8,
    #[error("bytes stand behind the seal")]
    TrailingBytes,
    #[error("the seal does not fit the bytes")]
    Seal,
}

/// A writer gave an error.
#[derive(Debug, Drop, Error)]
#[error("the device failed")]
pub struct DeviceFault;
