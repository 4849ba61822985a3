//! The trait of scanners.

ghost use Rattle.std.specs.Prelude.{◌≡◌, ◌≤◌, ◌<◌, ◌^◌, ℕ, List, Ok, length, nat_lt, is_ok, OnOk, OnErr, IfErr, IsErrOf, if◌then◌else◌, ◌+◌, ◌++◌};
ghost use Rattle.registry.specs.Texts.{spelled_number};
ghost use Rattle.text_spec.specs.Scanning.{Scan, Scans, Answers, one, any_octets, is_marked};
ghost use Rattle.dns_text.specs.Parts.{place_after};
ghost use Rattle.text_spec.specs.Rows.{number_below, number_by, name, rest_octets, rest_base64, rest_base16};

use crate::names::read_name;
use registry::{IanaNumber, Integer};
use std::alloc::Global;
use std::str;
use text_spec::{ScanError, Symbol, decode_base16, decode_base64};
use wire_base::{Name, Octets};

/// Takes the tokens of an entry one by one, and reads them as octets, numbers, names and encoded octets.
///
/// A scanner says by `scan` what the entry's tokens are and how many of them are taken, and defines the five calls that
/// have no body here. All others come with the trait. A call that scans takes the next token, or all that are left;
/// where it fails, the scanner is unchanged. `EndOfEntry` comes exactly where a token is asked for and none is left,
/// and `NoMemory` only when allocation fails.
pub trait Scanner {
    /// The entry's tokens, and how many of them are taken.
    ghost scan: { Self → Scan };

    /// Whether a token is left.
    fn continues(&self) -> bool
        ensures { result ≡ nat_lt (scan self.now).taken (length (scan self.now).tokens) };

    /// The count of tokens taken.
    fn taken(&self) -> usize
        ensures taken { result ≡ (scan self.now).taken }
        ensures within { result ≤ length (scan self.now).tokens };

    /// Goes back to where so many tokens were taken. It allocates nothing.
    fn go_back(&mut self, taken: usize)
        requires { taken ≤ (scan self.old).taken }
        ensures { scan self.new ≡ record (scan self.old) { taken = taken } };

    /// The next token's symbols.
    ///
    /// `EndOfEntry`: no token is left. `NoMemory`: an allocation failed. The scanner is then unchanged.
    fn scan_symbols(&mut self, alloc: Global) -> Result<Vec<Symbol>, ScanError>
        ensures { Scans (λ symbols. symbols.items) (one Ok)
            (scan self.old) (scan self.new) result };

    /// Takes the next token exactly where it is the one escaped symbol `#`, and says whether it is (RFC 3597, section
    /// 5). It allocates nothing.
    fn scan_opt_unknown_marker(&mut self) -> bool
        ensures marked { result ≡ is_marked (scan self.old).tokens (scan self.old).taken }
        ensures taken { scan self.new ≡ record (scan self.old)
            { taken = if result then (scan self.old).taken + 1 else (scan self.old).taken } };

    /// The outcome of a scan that began where so many tokens were taken. Where it failed, the scanner goes back there.
    fn rewind_unless_ok<T>(
        &mut self,
        place: usize,
        outcome: Result<T, ScanError>,
    ) -> Result<T, ScanError>
        requires { place ≤ (scan self.old).taken }
        ensures outcome { result ≡ outcome }
        ensures place { scan self.new ≡ record (scan self.old)
            { taken = if is_ok result then (scan self.old).taken else place } }
    {
        if outcome.is_err() {
            self.go_back(place);
        }
        outcome
    }

    /// The outcome of a scan of several tokens that began where so many tokens were taken. Where an allocation failed,
    /// the scanner goes back there; after any other error it stays where it is.
    fn rewind_on_no_memory<T>(
        &mut self,
        place: usize,
        outcome: Result<T, ScanError>,
    ) -> Result<T, ScanError>
        requires { IsErrOf outcome ScanError.NoMemory → place ≤ (scan self.old).taken }
        ensures outcome { result ≡ outcome }
        ensures place { scan self.new ≡ record (scan self.old)
            { taken = place_after result place (scan self.old).taken } }
    {
        if let Err(ScanError::NoMemory) = outcome {
            self.go_back(place);
        }
        outcome
    }

    /// Tests that no token is left.
    ///
    /// `TrailingTokens`: exactly where one is left. It allocates nothing.
    fn check_end(&self) -> Result<(), ScanError>
        ensures ok { OnOk result ((scan self.now).taken ≡ length (scan self.now).tokens) }
        ensures left { OnErr result ((scan self.now).taken < length (scan self.now).tokens) }
        ensures only { IfErr result (λ error. error ≡ ScanError.TrailingTokens) }
    {
        // Never are more tokens taken than there are: what `taken` says settles `ok`.
        let _taken = self.taken();
        if self.continues() {
            return Err(ScanError::TrailingTokens);
        }
        Ok(())
    }

    /// The next token's octets, escaped or not.
    ///
    /// `EndOfEntry`: no token is left. `NoMemory`: an allocation failed. The scanner is then unchanged.
    fn scan_octets(&mut self, alloc: Global) -> Result<Octets, ScanError>
        ensures { Scans (λ octets. octets) (one any_octets)
            (scan self.old) (scan self.new) result }
    {
        let place = self.taken();
        let symbols = self.scan_symbols(alloc)?;
        let outcome = join_symbols(alloc, symbols.as_slice());
        self.rewind_unless_ok(place, outcome)
    }

    /// The number of at most 255 that the next token spells: an optional `+`, then decimal digits.
    ///
    /// `EndOfEntry`: no token is left. `BadNumber`: the token is another text. `NoMemory`: an allocation failed. The
    /// scanner is then unchanged.
    fn scan_u8(&mut self, alloc: Global) -> Result<u8, ScanError>
        ensures { Scans (λ number. number) (number_below (2 ^ 8))
            (scan self.old) (scan self.new) result }
    {
        let place = self.taken();
        let octets = self.scan_octets(alloc)?;
        let outcome = u8::from_text(octets.as_slice()).ok_or(ScanError::BadNumber);
        self.rewind_unless_ok(place, outcome)
    }

    /// The number of at most 65,535 that the next token spells: an optional `+`, then decimal digits.
    ///
    /// `EndOfEntry`: no token is left. `BadNumber`: the token is another text. `NoMemory`: an allocation failed. The
    /// scanner is then unchanged.
    fn scan_u16(&mut self, alloc: Global) -> Result<u16, ScanError>
        ensures { Scans (λ number. number) (number_below (2 ^ 16))
            (scan self.old) (scan self.new) result }
    {
        let place = self.taken();
        let octets = self.scan_octets(alloc)?;
        let outcome = u16::from_text(octets.as_slice()).ok_or(ScanError::BadNumber);
        self.rewind_unless_ok(place, outcome)
    }

    /// The number of at most 4,294,967,295 that the next token spells: an optional `+`, then decimal digits.
    ///
    /// `EndOfEntry`: no token is left. `BadNumber`: the token is another text. `NoMemory`: an allocation failed. The
    /// scanner is then unchanged.
    fn scan_u32(&mut self, alloc: Global) -> Result<u32, ScanError>
        ensures { Scans (λ number. number) (number_below (2 ^ 32))
            (scan self.old) (scan self.new) result }
    {
        let place = self.taken();
        let octets = self.scan_octets(alloc)?;
        let outcome = read_u32(octets.as_slice()).ok_or(ScanError::BadNumber);
        self.rewind_unless_ok(place, outcome)
    }

    /// The number of a registry that the next token spells.
    ///
    /// `EndOfEntry`: no token is left. `BadNumber`: the token is another text. `NoMemory`: an allocation failed. The
    /// scanner is then unchanged.
    fn scan_number<T: IanaNumber>(&mut self, alloc: Global) -> Result<T, ScanError>
        ensures { Scans (λ x. T.number x) (number_by T.reads)
            (scan self.old) (scan self.new) result }
    {
        let place = self.taken();
        let octets = self.scan_octets(alloc)?;
        let outcome = T::from_bytes(octets.as_slice()).ok_or(ScanError::BadNumber);
        self.rewind_unless_ok(place, outcome)
    }

    /// The name that the next token spells (RFC 1035, section 5.1), which is absolute with a final dot and without one.
    ///
    /// `EndOfEntry`: no token is left. `BadName`: the token is a lone `@`, is empty, has an empty part other than
    /// behind a final dot, a part of more than 63 octets, or more than 254 octets in its parts and their lengths; a
    /// lone dot is the root. `NoMemory`: an allocation failed. The scanner is then unchanged.
    fn scan_name(&mut self, alloc: Global) -> Result<Name, ScanError>
        ensures { Scans (λ name. name) name (scan self.old) (scan self.new) result }
    {
        let place = self.taken();
        let symbols = self.scan_symbols(alloc)?;
        let outcome = read_name(alloc, symbols.as_slice());
        self.rewind_unless_ok(place, outcome)
    }

    /// The octets of all tokens left, joined; none where no token is left.
    ///
    /// `NoMemory`: an allocation failed. The scanner is then unchanged.
    fn scan_rest(&mut self, alloc: Global) -> Result<Octets, ScanError>
        ensures { Scans (λ octets. octets) rest_octets (scan self.old) (scan self.new) result }
    {
        let place = self.taken();
        let mut octets = Vec::new(alloc);
        while self.continues() {
            let next = self.scan_octets(alloc);
            let next = self.rewind_unless_ok(place, next)?;
            let appended = append_octets(&mut octets, next.as_slice());
            self.rewind_unless_ok(place, appended)?;
        }
        Ok(Octets::from_vec(octets))
    }

    /// The octets that all tokens left, joined, spell in base64 (RFC 4648, section 4); none where no token is left.
    ///
    /// `BadBase64`: the tokens joined are no base64 text. `NoMemory`: an allocation failed. The scanner is then
    /// unchanged.
    fn scan_rest_base64(&mut self, alloc: Global) -> Result<Octets, ScanError>
        ensures { Scans (λ octets. octets) rest_base64 (scan self.old) (scan self.new) result }
    {
        let place = self.taken();
        let text = self.scan_rest(alloc)?;
        let outcome = decode_base64(alloc, text.as_slice());
        self.rewind_unless_ok(place, outcome)
    }

    /// The octets that all tokens left, joined, spell in base16 (RFC 4648, section 8), in either case; none where no
    /// token is left.
    ///
    /// `BadBase16`: the tokens joined are no base16 text. `NoMemory`: an allocation failed. The scanner is then
    /// unchanged.
    fn scan_rest_base16(&mut self, alloc: Global) -> Result<Octets, ScanError>
        ensures { Scans (λ octets. octets) rest_base16 (scan self.old) (scan self.new) result }
    {
        let place = self.taken();
        let text = self.scan_rest(alloc)?;
        let outcome = decode_base16(alloc, text.as_slice());
        self.rewind_unless_ok(place, outcome)
    }
}

/// The octets of symbols, escaped or not.
fn join_symbols(alloc: Global, symbols: &[Symbol]) -> Result<Octets, ScanError>
    ensures { Answers (λ octets. octets) result (any_octets symbols.now) }
{
    let octets = symbols.iter().map(|symbol| symbol.octet).collect(alloc)?;
    Ok(Octets::from_vec(octets))
}

/// The number that a number text of at most 32 bits spells.
#[tactic(auto, using(registry::specs::TextLaws::parsed_text, registry::proofs::Numerals::no_text))]
fn read_u32(text: &[u8]) -> Option<u32>
    ensures { result ≡ spelled_number (2 ^ 32) text.now }
{
    str::from_utf8(text).ok()?.parse::<u32>().ok()
}

fn append_octets(target: &mut Vec<u8>, octets: &[u8]) -> Result<(), ScanError>
    ensures ok { OnOk result (target.new.items ≡ target.old.items ++ octets.now) }
    ensures err { IfErr result (λ error. error ≡ ScanError.NoMemory) }
{
    target.extend_from_slice(octets)?;
    Ok(())
}
