//! A scanner of someone else's: over tokens that were split elsewhere.

ghost use Rattle.std.specs.Prelude.{◌≡◌, ◌≤◌, length, map};
ghost use Rattle.text_spec.specs.Scanning.{Scan, Scans, one, is_marked};

use dns_text::{Scanner, scan_unknown};
use std::alloc::Global;
use text_spec::{ScanError, Symbol};
use wire_base::{Octets, Rtype};

/// Tokens, and how many of them are taken.
#[derive(Clone, Copy, Debug)]
pub struct SplitScanner<'t> {
    tokens: &'t [&'t [Symbol]],
    taken: usize,
    ghost within: { taken ≤ length tokens.now },
}

impl<'t> SplitScanner<'t> {
    /// A scanner before the first of these tokens.
    pub fn new(tokens: &'t [&'t [Symbol]]) -> SplitScanner<'t> {
        SplitScanner { tokens, taken: 0 }
    }
}

impl Scanner for SplitScanner<'_> {
    ghost use Rattle.std.specs.Prelude.{map};

    ghost scan = { λ s. record { tokens = map (λ token. token.now) s.tokens.now; taken = s.taken } };

    fn continues(&self) -> bool {
        self.taken < self.tokens.len()
    }

    fn taken(&self) -> usize {
        self.taken
    }

    fn go_back(&mut self, taken: usize) {
        self.taken = taken;
    }

    fn scan_symbols(&mut self, alloc: Global) -> Result<Vec<Symbol>, ScanError> {
        if self.taken >= self.tokens.len() {
            return Err(ScanError::EndOfEntry);
        }
        let symbols = Vec::from_slice(alloc, self.tokens[self.taken])?;
        self.taken += 1;
        Ok(symbols)
    }

    fn scan_opt_unknown_marker(&mut self) -> bool {
        if self.taken >= self.tokens.len() {
            return false;
        }
        let token = self.tokens[self.taken];
        let marked = token.len() == 1 && token[0].escaped && token[0].octet == b'#';
        if marked {
            self.taken += 1;
        }
        marked
    }
}

/// A symbol that stands for itself.
fn plain(octet: u8) -> Symbol {
    Symbol {
        octet,
        escaped: false,
    }
}

/// Data of any type behind the marker, by the calls that come with the trait.
fn scan_tokens(alloc: Global) -> Result<Octets, ScanError> {
    let marker = [Symbol {
        octet: b'#',
        escaped: true,
    }];
    let count = [plain(b'2')];
    let first = [plain(b'0'), plain(b'A')];
    let second = [plain(b'f'), plain(b'C')];
    let tokens: [&[Symbol]; 4] = [&marker, &count, &first, &second];
    let mut scanner = SplitScanner::new(&tokens);
    if !scanner.scan_opt_unknown_marker() {
        return Err(ScanError::UnknownType);
    }
    let data = scan_unknown(alloc, Rtype::from_int(999), &mut scanner)?;
    scanner.check_end()?;
    Ok(Octets::from_slice(alloc, data.octets())?)
}

#[test]
fn another_scanner_serves_as_well(rt: HostRuntime) {
    let found = scan_tokens(rt.alloc());
    let octets: &[u8] = b"\x0a\xfc";
    assert!(rt; matches!(&found, Ok(found) if found.as_slice() == octets));
}
