//! How much of a binary is read.
ghost use Rattle.std.specs.Prelude.{◌≡◌, Some};
ghost use Rattle.audit_binaries.specs.Limits.{limits_of};

/// The largest binaries and payloads, in bytes.
#[derive(Clone, Copy, Debug, PartialEq, Eq)]
pub struct BinaryLimits {
    /// The largest binary that is read.
    pub binary: u64,
    /// The largest payload that is audited.
    pub payload: u64,
}

impl BinaryLimits {
    /// The limits that are asked for, in bytes. By default a binary has 104,857,600 and a payload
    /// 8,388,608; a binary limit of 0 means any binary.
    pub fn of(max_binary_size: Option<u64>, audit_data_size_limit: Option<u64>) -> BinaryLimits
        ensures { result ≡ limits_of max_binary_size audit_data_size_limit }
    {
        BinaryLimits {
            binary: match max_binary_size {
                None => 104857600,
                Some(0) => u64::MAX,
                Some(size) => size,
            },
            payload: match audit_data_size_limit {
                None => 8388608,
                Some(size) => size,
            },
        }
    }
}
