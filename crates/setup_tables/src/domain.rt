ghost use Rattle.std.specs.Prelude.{◌≡◌, IfSome, IfNone, IfOk};
ghost use Rattle.std.specs.Option.{option_copied};
ghost use Rattle.toml.specs.View.{table_view};
ghost use Rattle.setup_tables.specs.Answer.{Gives, HasNone, the};

use crate::keys::{has_only, number_at, optional_text_at, table_at};
use crate::origin::Origin;
use crate::spelled::addr4_at;
use crate::{SetupCause, SetupFault};
use octets::{Addr4, Mtus, Name, NoMemory};
use std::alloc::Global;
use toml::Table;

/// The names at the top of a configuration.
const TOP_NAMES: [&str; 5] = ["domain", "rule", "edge", "forward", "change"];

/// The keys of `[domain]`.
const KEYS: [&str; 7] = ["dmr", "relay", "mtu4", "mtu6", "access", "core", "options"];

/// The range of an MTU, in octets.
const LEAST_MTU: u16 = 1280;

const MOST_MTU: u16 = 9000;

/// The keys of `[domain]` that must stand in any case.
#[derive(Clone, Copy, Debug)]
pub struct Required {
    /// The relay's own IPv4 address.
    pub relay: Addr4,
    /// The greatest packets of each side, in octets.
    pub mtus: Mtus,
}

/// What `[domain]` says.
#[derive(Debug, Drop)]
pub struct Domain {
    /// The relay's address and the MTUs.
    pub required: Required,
    /// Where the default mapping rule and the rules come from.
    pub origin: Origin,
    /// The capture of the access network.
    pub access: Option<Name>,
    /// The capture of the core.
    pub core: Option<Name>,
}

impl Required {
    ghost use Rattle.setup_tables.specs.Domain.{HasRequired};

    /// These keys of a table, or `None` where one isn't as it should be or another key is unknown.
    fn of(table: &Table) -> Option<Required>
        ensures found { IfSome result (HasRequired (table_view table.now)) }
        ensures none { IfNone result (HasNone HasRequired (table_view table.now)) }
    {
        if !has_only(table, &KEYS) {
            return None;
        }
        let relay = addr4_at(table, "relay")?;
        let mtu4 = number_at(table, "mtu4", LEAST_MTU, MOST_MTU)?;
        let mtu6 = number_at(table, "mtu6", LEAST_MTU, MOST_MTU)?;
        Some(Required {
            relay,
            mtus: Mtus { mtu4, mtu6 },
        })
    }
}

/// A name in memory of its own.
pub(crate) fn name_of(alloc: Global, text: Option<&str>) -> Result<Option<Name>, NoMemory>
    ensures { IfOk result (λ name. name ≡ option_copied text.entry) }
{
    match text {
        Some(text) => Ok(Some(Name::of(alloc, text)?)),
        None => Ok(None),
    }
}

impl Domain {
    ghost use Rattle.setup_tables.specs.Domain.{IsDomain};
    ghost use Rattle.setup_tables.specs.Origin.{HasFew};

    /// What the document's domain says. `BadDomain` where a key isn't as it should be, a name at the top is
    /// unknown, or `options` stand beside `dmr` or `[[rule]]` or say a default mapping rule that is none.
    pub(crate) fn read(alloc: Global, document: &Table) -> Result<Domain, SetupFault>
        ensures few { IfOk result (λ domain. HasFew domain.origin) }
        ensures exact { Gives (λ d. d) result (the (IsDomain (table_view document.now)) (SetupFault.Refused SetupCause.BadDomain 0)) }
    {
        let bad = SetupFault::Refused(SetupCause::BadDomain, 0);
        if !has_only(document, &TOP_NAMES) {
            return Err(bad);
        }
        let Some(table) = table_at(document, "domain") else {
            return Err(bad);
        };
        let Some(required) = Required::of(table) else {
            return Err(bad);
        };
        let Some(origin) = Origin::read(alloc, document, table)? else {
            return Err(bad);
        };
        let Some(access) = optional_text_at(table, "access") else {
            return Err(bad);
        };
        let Some(core) = optional_text_at(table, "core") else {
            return Err(bad);
        };
        Ok(Domain {
            required,
            origin,
            access: name_of(alloc, access)?,
            core: name_of(alloc, core)?,
        })
    }
}
