ghost use Rattle.std.specs.Prelude.{◌≡◌, ◌++◌, OnOk, IfOk};
ghost use Rattle.std.specs.Fmt.{decimal};
ghost use Rattle.rule_book.specs.Text.{rule_line, dmr_prefix_line, book_text};

use map_rules::{Dmr, Rule};
use octets::{Bytes, NoMemory, Prefix4, Prefix6};
use std::alloc::Global;

/// The parts of a rule that its line shows. They may go together or not: a `Rule` is made of those that do.
#[derive(Clone, Copy, Debug, PartialEq, Eq)]
pub struct RuleParts {
    /// The IPv6 prefix.
    pub prefix6: Prefix6,
    /// The IPv4 prefix.
    pub prefix4: Prefix4,
    /// The number of EA bits.
    pub ea: u8,
    /// The PSID offset in bits.
    pub offset: u8,
    /// Whether it is a forwarding mapping rule too.
    pub forward: bool,
}

/// The text of a book with these rules and this default mapping rule.
pub(crate) fn text_of(alloc: Global, rules: &[Rule], dmr: &Dmr) -> Result<Bytes, NoMemory>
    ensures { IfOk result (λ text. text ≡ book_text rules.now dmr.now) }
{
    let mut text = dmr_line(alloc, &dmr.prefix)?;
    for rule in rules {
        text.extend(rule_line(alloc, rule)?.as_slice())?;
    }
    Ok(text)
}

/// The line of a default mapping rule with this prefix: `dmr` and the prefix.
#[tactic(auto, unfolding(crate::specs::Text::dmr_prefix_line))]
pub fn dmr_line(alloc: Global, prefix: &Prefix6) -> Result<Bytes, NoMemory>
    ensures { IfOk result (λ line. line ≡ dmr_prefix_line prefix.now) }
{
    let mut line = Bytes::new(alloc);
    line.extend(b"dmr ")?;
    line.extend(prefix.text(alloc)?.as_slice())?;
    line.push(b'\n')?;
    Ok(line)
}

impl RuleParts {
    ghost use Rattle.rule_book.specs.Text.{parts_line};

    /// The line of a rule with these parts: `rule`, its IPv6 and IPv4 prefixes, `ea` and the number of EA bits,
    /// `offset` and the PSID offset, `forward` and 0 or 1. It ends with a newline.
    #[tactic(auto, unfolding(crate::specs::Text::parts_line))]
    pub fn line(&self, alloc: Global) -> Result<Bytes, NoMemory>
        ensures { IfOk result (λ line. line ≡ parts_line self.now) }
    {
        let mut line = Bytes::new(alloc);
        line.extend(b"rule ")?;
        line.extend(self.prefix6.text(alloc)?.as_slice())?;
        line.push(b' ')?;
        line.extend(self.prefix4.text(alloc)?.as_slice())?;
        line.extend(b" ea ")?;
        push_number(alloc, &mut line, u16::from(self.ea))?;
        line.extend(b" offset ")?;
        push_number(alloc, &mut line, u16::from(self.offset))?;
        line.extend(b" forward ")?;
        line.extend(if self.forward { b"1" } else { b"0" })?;
        line.push(b'\n')?;
        Ok(line)
    }
}

/// The line of a rule.
fn rule_line(alloc: Global, rule: &Rule) -> Result<Bytes, NoMemory>
    ensures { IfOk result (λ line. line ≡ rule_line rule.now) }
{
    let parts = RuleParts {
        prefix6: rule.prefix6,
        prefix4: rule.prefix4,
        ea: rule.ea,
        offset: rule.offset,
        forward: rule.forward,
    };
    parts.line(alloc)
}

/// Adds a number in decimal digits.
pub(crate) fn push_number(alloc: Global, text: &mut Bytes, number: u16) -> Result<(), NoMemory>
    ensures { OnOk result (text.new ≡ text.old ++ decimal number) }
{
    let digits = number.to_string(alloc)?;
    text.extend(digits.as_bytes())
}
