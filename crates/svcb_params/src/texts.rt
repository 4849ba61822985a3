//! Service parameters as text.

ghost use Rattle.std.specs.Prelude.{Some};
ghost use Rattle.svcb_spec.specs.PrintedParams.{params_printed};
ghost use Rattle.svcb_spec.specs.DataDocuments.{params_document};
ghost use Rattle.svcb_spec.specs.DataDocumentLaws.{document-params};
ghost use Rattle.svcb_params.specs.ParamsView.{seen_params};

use crate::params::SvcParams;
use crate::params_ref::SvcParamsRef;
use crate::printed_pair::PrintedPair;
use dns_text::{Formatter, ZonefileFmt};
use std::fmt;
use wire_base::NoMemory;

/// The text of a view of the parameters.
impl fmt::Display for SvcParams {
    ghost output = { λ params. Some (params_printed params) };

    fn fmt<W: fmt::Write>(&self, f: &mut fmt::Formatter<W>) -> fmt::Result {
        write!(f, "{}", self.for_slice())
    }
}

/// The texts of the pairs by ascending keys, with a space between two of them.
///
/// A pair is printed as the value that its octets wholly are, where this text gives the octets back: `mandatory` has
/// keys, which ascend strictly from above 0 and which other pairs have; `alpn` has protocols, and none of no octets;
/// a hint has addresses, and `ech` has octets; `dohpath` has visible ASCII alone, without `"`, `\`, `;`, `(` and `)`;
/// the groups are distinct. Every other pair is printed as any octets are, and a key that has a type as `key` and its
/// number: `key3=\0005\000` has one octet more than a port. Takes no memory.
impl fmt::Display for SvcParamsRef<'_> {
    ghost output = { λ view. Some (params_printed (seen_params view)) };

    #[tactic(auto, using(crate::proofs::RawPairs::raw_rules))]
    fn fmt<W: fmt::Write>(&self, f: &mut fmt::Formatter<W>) -> fmt::Result {
        let all = *self;
        let mut pairs = all.iter_raw();
        let Some(first) = pairs.next() else {
            return Ok(());
        };
        write!(f, "{}", PrintedPair { all, pair: first })?;
        for pair in pairs {
            write!(f, " {}", PrintedPair { all, pair })?;
        }
        Ok(())
    }
}

/// The block of a view of the parameters.
impl ZonefileFmt for SvcParams {
    ghost document = { λ params. params_document params };

    ghost is_document = { λ params. document-params params };

    fn fmt_zone(&self, f: &mut Formatter) -> Result<(), NoMemory> {
        self.for_slice().fmt_zone(f)
    }
}

/// A block with a token for each pair, as `Display` has it.
impl ZonefileFmt for SvcParamsRef<'_> {
    ghost document = { λ view. params_document (seen_params view) };

    ghost is_document = { λ view. document-params (seen_params view) };

    #[tactic(auto, using(crate::proofs::RawPairs::raw_rules))]
    fn fmt_zone(&self, f: &mut Formatter) -> Result<(), NoMemory> {
        let all = *self;
        f.begin_block()?;
        for pair in all.iter_raw() {
            f.write_display(&PrintedPair { all, pair })?;
        }
        f.end_block()
    }
}
