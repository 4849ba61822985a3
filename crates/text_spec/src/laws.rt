//! Laws of the texts of entries and of the octets that they are made of, each proved for all arguments. The functions do nothing when they run.

ghost use Rattle.std.specs.List.{flat_map};
ghost use Rattle.name_spec.specs.Names.{AreLabels};
ghost use Rattle.name_spec.specs.AddressLaws.{AreOctets};
ghost use Rattle.text_spec.specs.Laws.{TokensRead, FaultRead};
ghost use Rattle.text_spec.specs.Laws.{TokenIsEntry, TokenInFront, TokensOfOctets};
ghost use Rattle.text_spec.specs.Laws.{OctetsReadBack, NameTextReadBack, Base64Exact, Base16ReadBack};
ghost use Rattle.text_spec.specs.Laws.{PlainReadBack, DecimalReadBack, DecimalIsNumber, Base16TokenText, Base64TokenText};
ghost use Rattle.text_spec.specs.Laws.{Ipv4TokenText, Ipv6TokenText, WordsReadBack, LayoutSplits};

use wire_base::Name;

/// A text has tokens exactly where it is read without a fault, and then they are those that are read.
pub fn tokens_read()
    ensures { TokensRead }
{}

/// A text has a fault exactly where it is the first that is found.
pub fn fault_read()
    ensures { FaultRead }
{}

/// A text that is wholly a token's is an entry of that token alone.
pub fn token_is_entry()
    ensures { TokenIsEntry }
{}

/// A token's text, a space and an entry have that token in front of those of the entry.
pub fn token_in_front()
    ensures { TokenInFront }
{}

/// The tokens of a text of octets are of octets, which is what [`base64_exact`] asks of the text that it reads.
pub fn tokens_of_octets()
    ensures { TokensOfOctets }
{}

/// The octets of a slice are numbers below 256, which the laws of texts ask of octets.
#[tactic(auto, using(crate::proofs::EncodingTexts::AreOctets_from))]
pub fn slice_of_octets(octets: &[u8])
    ensures { AreOctets octets.now }
{}

/// The labels of a name are labels made of octets, which [`name_text_read_back`] asks of them.
#[tactic(auto, using(crate::proofs::OctetParts::labels_octets))]
pub fn name_of_octets(name: &Name)
    ensures labels { AreLabels 0 name.now }
    ensures octets { AreOctets (flat_map (λ label. label) name.now) }
{
    slice_of_octets(name.as_slice());
}

/// The printed text of octets is wholly a token of these octets.
pub fn octets_read_back()
    ensures { OctetsReadBack }
{}

/// The printed text of a name with its final dot is wholly a token that spells the name.
pub fn name_text_read_back()
    ensures { NameTextReadBack }
{}

/// A text is read as exactly the octets whose base64 text it is.
pub fn base64_exact()
    ensures { Base64Exact }
{}

/// Octets are read back from their base16 text.
pub fn base16_read_back()
    ensures { Base16ReadBack }
{}

/// A text of octets that each stand for themselves, at least one, is wholly a token of these octets.
pub fn plain_read_back()
    ensures { PlainReadBack }
{}

/// The decimal text of a number is wholly a token of its octets, and is read as that number.
pub fn decimal_read_back()
    ensures token { DecimalReadBack }
    ensures number { DecimalIsNumber }
{}

/// The base16 text of octets, at least one, is wholly a token of its octets.
pub fn base16_token_text()
    ensures { Base16TokenText }
{}

/// The base64 text of octets, at least one, is wholly a token of its octets.
pub fn base64_token_text()
    ensures { Base64TokenText }
{}

/// The text of an IPv4 address is wholly a token of its octets.
pub fn ipv4_token_text()
    ensures { Ipv4TokenText }
{}

/// The text of an IPv6 address is wholly a token of its octets.
pub fn ipv6_token_text()
    ensures { Ipv6TokenText }
{}

/// Words, with a space between two of them and with brackets around some, have exactly their tokens.
pub fn words_read_back()
    ensures { WordsReadBack }
{}

/// The text of a document, in each layout, has exactly the document's tokens.
pub fn layout_splits()
    ensures { LayoutSplits }
{}
