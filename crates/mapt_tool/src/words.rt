ghost use Rattle.std.specs.Prelude.{◌≡◌, ◌≢◌, ◌↔◌, ℕ, List, [], ◌∷◌, length, map, ◌≤◌, ◌<◌, ◌^◌, IsTrue, IfOk, IfErr, IfSome, IfNone};
ghost use Rattle.std.specs.Fmt.{decimal};
ghost use Rattle.std.specs.Option.{option_map};
ghost use Rattle.std.specs.String.{string_bytes};
ghost use Rattle.octets.specs.Text4.{text4, addr4_at};
ghost use Rattle.mapt_tool.specs.Request.{Request, replay, rules, owner, Asks, IsUsage};
ghost use Rattle.mapt_tool.specs.Words.{keyword_of, digits_up_to, number_up_to, fits, fitting, usage_number, seen};

use octets::{Addr4, read_addr4};

/// The first word of a form.
#[derive(Clone, Copy, Debug, PartialEq, Eq)]
pub(crate) enum Verb {
    Replay,
    Rules,
    Owner,
    Options,
}

impl Verb {
    /// How it is written.
    pub(crate) fn keyword(self) -> &'static str
        ensures { result.now ≡ keyword_of self }
    {
        match self {
            Verb::Replay => "replay",
            Verb::Rules => "rules",
            Verb::Owner => "owner",
            Verb::Options => "options",
        }
    }
}

/// What may stand in one place of a form.
#[derive(Clone, Copy, Debug, PartialEq, Eq)]
pub(crate) enum Kind {
    /// This verb.
    Verb(Verb),
    /// Any text but the empty one.
    FileName,
    /// Any text.
    Text,
    /// The number of a generation, 0 to 64.
    Generation,
    /// An IPv4 address.
    Address,
    /// A port, 0 to 65535.
    Port,
}

/// The greatest number of a generation that can be asked for.
const MOST_GENERATION: u32 = 64;

/// The greatest port.
const MOST_PORT: u32 = 65_535;

/// `replay C P`
pub(crate) const REPLAY: [Kind; 3] = [Kind::Verb(Verb::Replay), Kind::FileName, Kind::Text];

/// `rules C G`
pub(crate) const RULES: [Kind; 3] = [Kind::Verb(Verb::Rules), Kind::FileName, Kind::Generation];

/// `owner C G A X`
pub(crate) const OWNER: [Kind; 5] = [
    Kind::Verb(Verb::Owner),
    Kind::FileName,
    Kind::Generation,
    Kind::Address,
    Kind::Port,
];

/// `options F`
pub(crate) const OPTIONS: [Kind; 2] = [Kind::Verb(Verb::Options), Kind::FileName];

/// The number of decimal digits that stand after a number, as long as that isn't above the most.
fn digits_up_to(most: u32, word: &[u8]) -> Option<u32>
    requires { most ≤ 65535 }
    ensures value { result ≡ digits_up_to most 0 word.now }
    ensures most { IfSome result (λ n. n ≤ most) }
{
    let mut number = 0;
    for octet in word {
        if !octet.is_ascii_digit() {
            return None;
        }
        let next = 10 * number + u32::from(*octet - b'0');
        if next > most {
            return None;
        }
        number = next;
    }
    Some(number)
}

/// The number that the word spells: decimal digits without a leading zero, except `0` itself, up to the most.
fn number_up_to(most: u32, word: &[u8]) -> Option<u32>
    requires { most ≤ 65535 }
    ensures value { result ≡ number_up_to most word.now }
    ensures most { IfSome result (λ n. n ≤ most) }
{
    match word {
        [] => None,
        [_] => digits_up_to(most, word),
        [first, ..] => {
            if *first == b'0' {
                None
            } else {
                digits_up_to(most, word)
            }
        }
    }
}

/// The number up to the most that the word spells, by its decimal digits.
fn number_in(most: u32, word: &str) -> Option<u32>
    requires { most ≤ 65535 }
    ensures found { IfSome result (λ n. (n ≤ most) × (word.now ≡ decimal n)) }
    ensures none { IfNone result ((n : ℕ) → n ≤ most → word.now ≡ decimal n → ⊥) }
{
    number_up_to(most, word.as_bytes())
}

/// The IPv4 address that the word spells.
fn address_of(word: &[u8]) -> Option<Addr4>
    ensures value { option_map (λ addr. addr.0) result ≡ addr4_at word.now }
    ensures found { IfSome result (λ addr. (addr.0 < 2 ^ 32) × (word.now ≡ text4 addr.0)) }
    ensures none { IfNone result ((addr : ℕ) → addr < 2 ^ 32 → word.now ≡ text4 addr → ⊥) }
{
    match read_addr4(word) {
        Ok(addr) => Some(addr),
        Err(_) => None,
    }
}

impl Kind {
    /// Whether the word may stand in this place.
    pub(crate) fn fits(self, word: &str) -> bool
        ensures { result ≡ fits self word.now }
    {
        match self {
            Kind::Verb(verb) => word == verb.keyword(),
            Kind::FileName => !word.is_empty(),
            Kind::Text => true,
            Kind::Generation => number_up_to(MOST_GENERATION, word.as_bytes()).is_some(),
            Kind::Address => address_of(word.as_bytes()).is_some(),
            Kind::Port => number_up_to(MOST_PORT, word.as_bytes()).is_some(),
        }
    }
}

/// How many words follow the form, from the first on.
pub(crate) fn fitting(form: &[Kind], words: &[String]) -> u32
    requires { length form.now ≤ 16 }
    ensures count { result ≡ fitting form.now (map string_bytes words.now) }
    ensures within { result ≤ length form.now }
{
    let [kind, kinds @ ..] = form else {
        return 0;
    };
    let [word, others @ ..] = words else {
        return 0;
    };
    if kind.fits(word.as_str()) {
        fitting(kinds, others) + 1
    } else {
        0
    }
}

/// A command.
#[derive(Clone, Copy, Debug)]
pub(crate) enum Command<'a> {
    /// Replays a configuration, and writes files whose names begin with the prefix.
    Replay {
        config: &'a str,
        prefix: &'a str,
    },
    /// Prints the rules of a generation.
    Rules {
        config: &'a str,
        generation: u32,
    },
    /// Prints which edge address holds an IPv4 address and port in a generation.
    Owner {
        config: &'a str,
        generation: u32,
        addr: Addr4,
        port: u16,
    },
    /// Prints the container of DHCPv6 options in a file, and writes it again.
    Options {
        file: &'a str,
    },
}

/// The number of Usage: how many words from the first on begin a form.
pub(crate) fn usage(words: &[String]) -> u32
    ensures { result ≡ usage_number (map string_bytes words.now) }
{
    let replay = fitting(&REPLAY, words);
    let rules = fitting(&RULES, words);
    let owner = fitting(&OWNER, words);
    let options = fitting(&OPTIONS, words);
    replay.max(rules.max(owner.max(options)))
}

/// Whether the word is this verb.
fn is_verb(word: &str, verb: Verb) -> bool
    ensures { IsTrue result ↔ (word.now ≡ keyword_of verb) }
{
    word == verb.keyword()
}

/// Whether the word names a file.
fn is_file_name(word: &str) -> bool
    ensures { IsTrue result ↔ (word.now ≢ []) }
{
    !word.is_empty()
}

/// The command `replay` of these words, if they spell it.
fn replay_of<'a>(verb: &str, config: &'a str, prefix: &'a str) -> Option<Command<'a>>
    ensures found { IfSome result (λ command. Asks (verb.now ∷ config.now ∷ prefix.now ∷ []) (seen command)) }
    ensures none { IfNone result ((named begin : List ℕ)
        → Asks (verb.now ∷ config.now ∷ prefix.now ∷ []) (replay named begin) → ⊥) }
{
    if is_verb(verb, Verb::Replay) && is_file_name(config) {
        Some(Command::Replay { config, prefix })
    } else {
        None
    }
}

/// The command `rules` of these words, if they spell it.
fn rules_of<'a>(verb: &str, config: &'a str, generation: &str) -> Option<Command<'a>>
    ensures found { IfSome result (λ command. Asks (verb.now ∷ config.now ∷ generation.now ∷ []) (seen command)) }
    ensures none { IfNone result ((named : List ℕ) (number : ℕ)
        → Asks (verb.now ∷ config.now ∷ generation.now ∷ []) (rules named number) → ⊥) }
{
    if !(is_verb(verb, Verb::Rules) && is_file_name(config)) {
        return None;
    }
    match number_in(MOST_GENERATION, generation) {
        Some(generation) => Some(Command::Rules { config, generation }),
        None => None,
    }
}

/// The command `owner` of these words, if they spell it.
fn owner_of<'a>(
    verb: &str,
    config: &'a str,
    generation: &str,
    addr: &str,
    port: &str,
) -> Option<Command<'a>>
    ensures found { IfSome result (λ command.
        Asks (verb.now ∷ config.now ∷ generation.now ∷ addr.now ∷ port.now ∷ []) (seen command)) }
    ensures none { IfNone result ((request : Request)
        → Asks (verb.now ∷ config.now ∷ generation.now ∷ addr.now ∷ port.now ∷ []) request → ⊥) }
{
    if !(is_verb(verb, Verb::Owner) && is_file_name(config)) {
        return None;
    }
    let (Some(generation), Some(addr), Some(port)) = (
        number_in(MOST_GENERATION, generation),
        address_of(addr.as_bytes()),
        number_in(MOST_PORT, port),
    ) else {
        return None;
    };
    Some(Command::Owner {
        config,
        generation,
        addr,
        port: port as u16,
    })
}

/// The command that two words spell, if they spell one.
fn command_of_two<'a>(verb: &str, file: &'a str) -> Option<Command<'a>>
    ensures found { IfSome result (λ command. Asks (verb.now ∷ file.now ∷ []) (seen command)) }
    ensures none { IfNone result ((request : Request) → Asks (verb.now ∷ file.now ∷ []) request → ⊥) }
{
    if is_verb(verb, Verb::Options) && is_file_name(file) {
        Some(Command::Options { file })
    } else {
        None
    }
}

/// The command that three words spell, if they spell one.
fn command_of_three<'a>(verb: &str, config: &'a str, third: &'a str) -> Option<Command<'a>>
    ensures found { IfSome result (λ command. Asks (verb.now ∷ config.now ∷ third.now ∷ []) (seen command)) }
    ensures none { IfNone result ((request : Request) → Asks (verb.now ∷ config.now ∷ third.now ∷ []) request → ⊥) }
{
    match replay_of(verb, config, third) {
        Some(command) => Some(command),
        None => rules_of(verb, config, third),
    }
}

/// The command that the words spell, if they spell one.
fn command_in(words: &[String]) -> Option<Command<'_>>
    ensures found { IfSome result (λ command. Asks (map string_bytes words.now) (seen command)) }
    ensures none { IfNone result ((request : Request) → Asks (map string_bytes words.now) request → ⊥) }
{
    match words {
        [verb, file] => command_of_two(verb.as_str(), file.as_str()),
        [verb, config, third] => command_of_three(verb.as_str(), config.as_str(), third.as_str()),
        [verb, config, generation, addr, port] => owner_of(
            verb.as_str(),
            config.as_str(),
            generation.as_str(),
            addr.as_str(),
            port.as_str(),
        ),
        _ => None,
    }
}

/// The command that the words spell, or the number of Usage.
pub(crate) fn command_of(words: &[String]) -> Result<Command<'_>, u32>
    ensures found { IfOk result (λ command. Asks (map string_bytes words.now) (seen command)) }
    ensures none { IfErr result (IsUsage (map string_bytes words.now)) }
{
    match command_in(words) {
        Some(command) => Ok(command),
        None => Err(usage(words)),
    }
}
