//! The canonical order of service parameters.

ghost use Rattle.svcb_spec.specs.Params.{wire};

use crate::params::SvcParams;
use crate::params_ref::SvcParamsRef;
use std::cmp::Ordering;
use wire_base::CanonicalOrd;

/// Octet by octet.
impl CanonicalOrd for SvcParams {
    ghost group = { λ _. 0 };

    ghost canonical = { wire };

    fn canonical_cmp(&self, other: &SvcParams) -> Ordering {
        self.as_slice().cmp(other.as_slice())
    }
}

/// Octet by octet.
impl<'a> CanonicalOrd for SvcParamsRef<'a> {
    ghost group = { λ _. 0 };

    ghost canonical = { λ view. view.slice.now };

    fn canonical_cmp(&self, other: &SvcParamsRef<'a>) -> Ordering {
        self.slice.cmp(other.slice)
    }
}
