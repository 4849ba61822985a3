//! Laws of the texts of service parameters, each proved for all arguments. The functions do nothing when they run.

// Texts that are printed.
ghost use Rattle.svcb_laws.specs.ParamTextLaws.{OpaqueReadBack, TypedReadBack, PairReadBack, ParamsReadBack, ParamsTextReadBack, AnyTokenOrder};

/// The text of any octets under a key is wholly a token that spells the value without a type of that key.
pub fn opaque_read_back()
    ensures { OpaqueReadBack }
{}

/// The text of a value that has one of its own is wholly a token that spells this value.
pub fn typed_read_back()
    ensures { TypedReadBack }
{}

/// The text of a pair of a map is wholly a token that spells a value of its key and its octets.
pub fn pair_read_back()
    ensures { PairReadBack }
{}

/// The tokens of the texts of a map's pairs, behind any tokens, spell exactly that map.
pub fn params_read_back()
    ensures { ParamsReadBack }
{}

/// The text of a map has tokens that spell exactly that map.
pub fn params_text_read_back()
    ensures { ParamsTextReadBack }
{}

/// Tokens that spell a map spell the same map in any other order, and all of them are taken.
pub fn any_token_order()
    ensures { AnyTokenOrder }
{}

// Lists, whole.
ghost use Rattle.svcb_laws.specs.ParamTextLaws.{CommaItemsExact, MandatoryExact, AscendingKeys, HintsExact, GroupsExact};

/// A text has exactly the items without commas that are the text with commas between them; no octets have none.
pub fn comma_items_exact()
    ensures { CommaItemsExact }
{}

/// A text spells exactly the mandatory keys, distinct and not 0, that its items spell, in ascending order.
pub fn mandatory_exact()
    ensures { MandatoryExact }
{}

/// The keys that [`mandatory_exact`] puts in ascending order are the same keys, each above the one before it.
pub fn ascending_keys()
    ensures { AscendingKeys }
{}

/// A text spells exactly the addresses of a hint that its items spell.
pub fn hints_exact()
    ensures { HintsExact }
{}

/// A text spells exactly the groups, distinct, that its items spell.
pub fn groups_exact()
    ensures { GroupsExact }
{}

// Protocols, whole.
ghost use Rattle.svcb_laws.specs.ParamTextLaws.{AlpnExact, AlpnValueExact, ProtocolsByStep};

/// A text has exactly the protocols, one at least, whose escaped forms are the text with commas between them.
pub fn alpn_exact()
    ensures { AlpnExact }
{}

/// A text spells exactly the value of the protocols that it has.
pub fn alpn_value_exact()
    ensures { AlpnValueExact }
{}

/// `protocols_of` is a step of itself, so the count in its definition is of no account.
pub fn protocols_by_step()
    ensures { ProtocolsByStep }
{}
