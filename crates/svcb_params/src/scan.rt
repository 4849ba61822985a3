//! Parameters scanned from the tokens of an entry.

ghost use Rattle.std.specs.Prelude.{IfOk};
ghost use Rattle.svcb_spec.specs.Params.{IsMap};
ghost use Rattle.text_spec.specs.Scanning.{Scan, Scans};
ghost use Rattle.svcb_spec.specs.ParamTexts.{params};
ghost use Rattle.svcb_params.specs.Scanned.{AnswersInAnyOrder};

use crate::params::SvcParams;
use dns_text::Scanner;
use std::alloc::Global;
use svcb_pairs::scan_params;
use text_spec::ScanError;

impl SvcParams {
    /// The parameters that all tokens left of an entry spell, in any order; none where no token is left. Each token is
    /// one parameter (RFC 9460, section 2.1), as `scan_param` of `svcb_text` reads it.
    ///
    /// A token's own fault, as `scan_param` gives it, or else `DuplicateKey`, where a token before it has its key: the
    /// first such token refuses, and the scanner stands before it. `MandatoryMissing`: no token has a fault, one of
    /// them is a `mandatory` list, and it names a key that no token has (RFC 9460, section 8); the scanner stands at
    /// the entry's end. The octets of a `key0` are no such list. `NoMemory`: allocation failed; the scanner stays.
    pub fn scan<S: Scanner>(alloc: Global, scanner: &mut S) -> Result<SvcParams, ScanError>
        ensures params { Scans (λ params. params) params
            (S.scan scanner.old) (S.scan scanner.new) result }
        ensures is_map { IfOk result IsMap }
        // The order of the tokens is of no account.
        ensures any_order { AnswersInAnyOrder (S.scan scanner.old) result }
    {
        Ok(SvcParams::from_checked_octets(scan_params(alloc, scanner)?))
    }
}
