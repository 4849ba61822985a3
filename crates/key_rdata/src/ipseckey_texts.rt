//! The data of IPSECKEY records as text.

ghost use Rattle.std.specs.Prelude.{◌≡◌, ◌+◌, false, length, Some, IfOk, OnOk, IsErrOf};
ghost use Rattle.text_spec.specs.Scanning.{Scan, Scans, ScansPart};
ghost use Rattle.text_spec.specs.ReadingBack.{ReadsBack};
ghost use Rattle.record_laws.specs.RecordLaws.{IsKeyedIpseckey};
ghost use Rattle.record_spec.specs.Ipseckeys.{lacks_key};
ghost use Rattle.record_spec.specs.IpseckeyTexts.{scan_ipseckey, ipseckey_printed, ipseckey_document};
ghost use Rattle.dns_text.specs.Writing.{Shows};
ghost use Rattle.record_spec.specs.DocumentLaws.{document-ipseckey};
ghost use Rattle.key_rdata.specs.ScanningParts.{scan_behind_numbers};
ghost use Rattle.key_rdata.specs.LayoutParts.{fields_items, ipseckey_numbers_items, precedence_items, type_items, algorithm_items, key_items};

use crate::gateway::IpseckeyGateway;
use crate::ipseckey::{Ipseckey, lacks_key};
use digest_rdata::EncodedOctets;
use dns_text::{Formatter, Scanner, ZonefileFmt};
use key_registry::{IpseckeyAlgorithm, IpseckeyGatewayType};
use record_spec::Encoding;
use std::alloc::Global;
use std::fmt;
use text_spec::ScanError;
use wire_base::NoMemory;

impl Ipseckey {
    /// Scans the data (RFC 4025, section 3.1): the precedence, the gateway's type and the algorithm as number texts
    /// of at most 255, the gateway as [`IpseckeyGateway::scan`] reads it, and the key in base64, which all tokens
    /// left spell together.
    ///
    /// The first fault decides, token by token, and each leaves the scanner at a place of its own:
    ///
    /// - `EndOfEntry`: no token is left for a number or the gateway. The scanner stands at the end of the entry.
    /// - `BadNumber`: a token is no such number. The scanner stands before that token.
    /// - `UnknownGateway`: the gateway's type is over 3. The scanner stands behind the three numbers.
    /// - `WrongGateway`, `BadAddress`, `BadName`: the token is no gateway of that type. The scanner stands before it.
    /// - `BadBase64`: the tokens left are no base64 text. The scanner stands before the first of them.
    /// - `MissingKey`: the key has no octets, and the algorithm isn't `NONE`. The scanner stands at the end of the
    ///   entry.
    /// - `LongRecord`: the data would have more than 65,535 octets. The scanner stands at the end of the entry.
    /// - `NoMemory`: allocation failed. The scanner is where it was before the call.
    ///
    /// The tokens of the printed text of data whose key isn't missing are scanned as that data, or allocation fails.
    #[tactic(auto, using(record_laws::proofs::ReadingBack::ipseckey_read_back))]
    pub fn scan<S: Scanner>(alloc: Global, scanner: &mut S) -> Result<Ipseckey, ScanError>
        ensures scans { Scans (λ found. found) scan_ipseckey
            (S.scan scanner.old) (S.scan scanner.new) result }
        ensures read_back { ReadsBack (λ found. found) IsKeyedIpseckey ipseckey_printed
            (S.scan scanner.old) result }

        // What is scanned has the key that it needs. The error for a missing key comes behind all tokens, that for an
        // unknown type of gateway behind the three numbers.
        ensures has_key { IfOk result (λ found. lacks_key found.algorithm found.key ≡ false) }
        ensures missing { IsErrOf result ScanError.MissingKey
            → (S.scan scanner.new).taken ≡ length (S.scan scanner.old).tokens }
        ensures unknown { IsErrOf result ScanError.UnknownGateway
            → (S.scan scanner.new).taken ≡ (S.scan scanner.old).taken + 3 }
    {
        let place = scanner.taken();
        let outcome = scan_fields(alloc, scanner);
        scanner.rewind_on_no_memory(place, outcome)
    }
}

/// The data. Where allocation fails, tokens may have been taken.
fn scan_fields<S: Scanner>(alloc: Global, scanner: &mut S) -> Result<Ipseckey, ScanError>
    ensures scans { ScansPart (λ found. found) scan_ipseckey
        (S.scan scanner.old) (S.scan scanner.new) result }
    ensures has_key { IfOk result (λ found. lacks_key found.algorithm found.key ≡ false) }
    ensures missing { IsErrOf result ScanError.MissingKey
        → (S.scan scanner.new).taken ≡ length (S.scan scanner.old).tokens }
    ensures unknown { IsErrOf result ScanError.UnknownGateway
        → (S.scan scanner.new).taken ≡ (S.scan scanner.old).taken + 3 }
{
    let precedence = scanner.scan_u8(alloc)?;
    let gateway_type = IpseckeyGatewayType::from(scanner.scan_u8(alloc)?);
    let algorithm = IpseckeyAlgorithm::from(scanner.scan_u8(alloc)?);
    scan_behind_numbers(alloc, scanner, precedence, gateway_type, algorithm)
}

/// The gateway and the key, and with the numbers the data. Where allocation fails, tokens may have been taken.
fn scan_behind_numbers<S: Scanner>(
    alloc: Global,
    scanner: &mut S,
    precedence: u8,
    gateway_type: IpseckeyGatewayType,
    algorithm: IpseckeyAlgorithm,
) -> Result<Ipseckey, ScanError>
    ensures scans { ScansPart (λ found. found)
        (scan_behind_numbers precedence gateway_type algorithm)
        (S.scan scanner.old) (S.scan scanner.new) result }
    ensures has_key { IfOk result (λ found. lacks_key found.algorithm found.key ≡ false) }
    ensures missing { IsErrOf result ScanError.MissingKey
        → (S.scan scanner.new).taken ≡ length (S.scan scanner.old).tokens }
    ensures unknown { IsErrOf result ScanError.UnknownGateway
        → (S.scan scanner.new).taken ≡ (S.scan scanner.old).taken }
{
    let gateway = IpseckeyGateway::scan(alloc, scanner, gateway_type)?;
    let key = scanner.scan_rest_base64(alloc)?;
    if lacks_key(algorithm, key.as_slice()) {
        return Err(ScanError::MissingKey);
    }
    Ipseckey::try_new(precedence, algorithm, gateway, key).map_err(|_| ScanError::LongRecord)
}

/// The precedence, the gateway's type and the algorithm in decimal digits and the gateway, each with a space behind
/// it, then the key in base64 between `( ` and ` )`.
impl fmt::Display for Ipseckey {
    ghost output = { λ found. Some (ipseckey_printed found) };

    fn fmt<W: fmt::Write>(&self, f: &mut fmt::Formatter<W>) -> fmt::Result {
        let precedence = self.precedence();
        let gateway_type = self.gateway_type();
        let algorithm = self.algorithm();
        let gateway = self.gateway();
        let key = EncodedOctets {
            octets: self.key().as_slice(),
            encoding: Encoding::Base64,
            in_brackets: true,
        };
        write!(f, "{precedence} {gateway_type} {algorithm} {gateway} {key}")
    }
}

/// A block of the precedence, the gateway's type, the algorithm, the gateway and the key in base64. All but the key
/// have a comment behind them.
impl ZonefileFmt for Ipseckey {
    ghost document = { ipseckey_document };

    ghost is_document = { document-ipseckey };

    fn fmt_zone(&self, f: &mut Formatter) -> Result<(), NoMemory> {
        f.begin_block()?;
        self.lay_out_fields(f)?;
        f.end_block()
    }
}

impl Ipseckey {
    /// Lays out the fields. Where allocation fails, a prefix of them may be laid out.
    fn lay_out_fields(&self, f: &mut Formatter) -> Result<(), NoMemory>
        ensures shows { Shows f.old (fields_items self.now) f.new result }
        ensures blocks { OnOk result (f.new.layout.blocks ≡ f.old.layout.blocks) }
    {
        self.lay_out_numbers(f)?;
        self.lay_out_key(f)
    }

    /// Lays out the precedence, the gateway's type and the algorithm.
    fn lay_out_numbers(&self, f: &mut Formatter) -> Result<(), NoMemory>
        ensures { Shows f.old (ipseckey_numbers_items self.now) f.new result }
    {
        self.lay_out_precedence(f)?;
        self.lay_out_type(f)?;
        self.lay_out_algorithm(f)
    }

    /// Lays out the precedence.
    fn lay_out_precedence(&self, f: &mut Formatter) -> Result<(), NoMemory>
        ensures { Shows f.old (precedence_items self.now) f.new result }
    {
        f.write_decimal(u32::from(self.precedence()))?;
        f.write_comment("precedence")
    }

    /// Lays out the gateway's type.
    fn lay_out_type(&self, f: &mut Formatter) -> Result<(), NoMemory>
        ensures { Shows f.old (type_items self.now) f.new result }
    {
        f.write_number(self.gateway_type())?;
        f.write_comment("gateway type")
    }

    /// Lays out the algorithm.
    fn lay_out_algorithm(&self, f: &mut Formatter) -> Result<(), NoMemory>
        ensures { Shows f.old (algorithm_items self.now) f.new result }
    {
        f.write_number(self.algorithm())?;
        f.write_comment("algorithm")
    }

    /// Lays out the gateway and the key.
    fn lay_out_key(&self, f: &mut Formatter) -> Result<(), NoMemory>
        ensures { Shows f.old (key_items self.now) f.new result }
    {
        f.write_show(self.gateway())?;
        f.write_comment("gateway")?;
        f.write_base64(self.key().as_slice())
    }
}
