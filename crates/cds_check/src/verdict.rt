//! Verdicts on CDS and CDNSKEY records.

/// Whether each CDS has its CDNSKEY and each CDNSKEY its CDS. Places count from 0.
#[derive(Clone, Copy, Debug, PartialEq, Eq)]
pub enum CdsVerdict {
    /// Each has its partner.
    Agree,
    /// The CDS at this place matches no CDNSKEY, and is the first such.
    CdsAlone(usize),
    /// Each CDS matches a CDNSKEY. No CDS matches the CDNSKEY at this place, which is the first such.
    CdnskeyAlone(usize),
}
