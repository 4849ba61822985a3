//! The registries of records that carry keys and their digests.
#![tactic(auto)]

mod digest_algorithm;
mod ipseckey_algorithm;
mod ipseckey_gateway_type;
mod octet_number;
mod security_algorithm;
mod sshfp_algorithm;
mod sshfp_type;
mod tlsa_certificate_usage;
mod tlsa_matching_type;
mod tlsa_selector;
mod zonemd_algorithm;
mod zonemd_scheme;

pub use digest_algorithm::{DigestAlgorithm, DigestAlgorithms};
pub use ipseckey_algorithm::{IpseckeyAlgorithm, IpseckeyAlgorithms};
pub use ipseckey_gateway_type::{IpseckeyGatewayType, IpseckeyGatewayTypes};
pub use octet_number::{OctetNumber, Registry};
pub use security_algorithm::{SecurityAlgorithm, SecurityAlgorithms};
pub use sshfp_algorithm::{SshfpAlgorithm, SshfpAlgorithms};
pub use sshfp_type::{SshfpType, SshfpTypes};
pub use tlsa_certificate_usage::{TlsaCertificateUsage, TlsaCertificateUsages};
pub use tlsa_matching_type::{TlsaMatchingType, TlsaMatchingTypes};
pub use tlsa_selector::{TlsaSelector, TlsaSelectors};
pub use zonemd_algorithm::{ZonemdAlgorithm, ZonemdAlgorithms};
pub use zonemd_scheme::{ZonemdScheme, ZonemdSchemes};
