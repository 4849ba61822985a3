//! Numbers of registries, with their mnemonics.

pub use key_registry::{
    DigestAlgorithm, IpseckeyAlgorithm, IpseckeyGatewayType, OctetNumber, Registry,
    SecurityAlgorithm, SshfpAlgorithm, SshfpType, TlsaCertificateUsage, TlsaMatchingType,
    TlsaSelector, ZonemdAlgorithm, ZonemdScheme,
};
pub use registry::{CommentName, FromStrError, IanaNumber, SvcParamKey};
pub use wire_base::Rtype;
