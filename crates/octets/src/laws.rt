//! What holds of texts beyond one call. Each law is the contract of a function that does nothing.

ghost use Rattle.std.specs.Prelude.{◌≡◌, ℕ, ◌≤◌, ◌<◌, ◌^◌, List};
ghost use Rattle.octets.specs.Bits.{IsClearFrom};
ghost use Rattle.octets.specs.Text4.{IsText4, text4};
ghost use Rattle.octets.specs.Text6.{IsText6, text6};
ghost use Rattle.octets.specs.Run6.{IsWritten6};
ghost use Rattle.octets.specs.PrefixText.{IsPrefixText4, IsPrefixText6, prefix_text4, prefix_text6};

/// The text that is written of an address or a prefix spells it, so that it is read again.
pub fn written_texts_are_read()
    ensures addr4 { (n : ℕ) → n < 2 ^ 32 → IsText4 (text4 n) n }
    ensures addr6 { (n : ℕ) → n < 2 ^ 128 → IsText6 (text6 n) n }
    ensures prefix4 { (bits len : ℕ) → bits < 2 ^ 32 → len ≤ 32 → IsClearFrom 32 bits len → IsPrefixText4 (prefix_text4 bits len) bits len }
    ensures prefix6 { (bits len : ℕ) → bits < 2 ^ 128 → len ≤ 128 → IsClearFrom 128 bits len
        → IsPrefixText6 (prefix_text6 bits len) bits len }
{}

/// A text spells one address or prefix at most.
pub fn a_text_spells_one_value()
    ensures addr4 { (text : List ℕ) (n m : ℕ) → IsText4 text n → IsText4 text m → n ≡ m }
    ensures addr6 { (text : List ℕ) (n m : ℕ) → IsText6 text n → IsText6 text m → n ≡ m }
    ensures prefix4 { (text : List ℕ) (bits len other long : ℕ) → IsPrefixText4 text bits len
        → IsPrefixText4 text other long → (bits ≡ other) × (len ≡ long) }
    ensures prefix6 { (text : List ℕ) (bits len other long : ℕ) → IsPrefixText6 text bits len
        → IsPrefixText6 text other long → (bits ≡ other) × (len ≡ long) }
{}

/// An IPv4 address and an IPv4 prefix have one text: the one that is written.
pub fn an_ipv4_text_is_the_written_one()
    ensures addr4 { (text : List ℕ) (n : ℕ) → IsText4 text n → text ≡ text4 n }
    ensures prefix4 { (text : List ℕ) (bits len : ℕ) → IsPrefixText4 text bits len → text ≡ prefix_text4 bits len }
{}

/// The text that is written of an IPv6 address is the one that RFC 5952, section 4.2 asks for: `::` stands
/// for the run of groups of zeros that has at least two groups, none longer and none earlier as long, where
/// there is one. No other text is so.
pub fn an_ipv6_text_is_shortened_by_the_rules()
    ensures written { (n : ℕ) → IsWritten6 (text6 n) n }
    ensures only { (text : List ℕ) (n : ℕ) → IsWritten6 text n → text ≡ text6 n }
{}
