ghost use Rattle.std.specs.Prelude.{IfOk};
ghost use Rattle.setup_tables.specs.Answer.{Gives};

use crate::claims::forwards_of;
use crate::crowd::edge_fault;
use crate::forward::Forwards;
use crate::moves::{Changes, book_after_all, changes_of};
use crate::shapes::first_book;
use octets::{Addr4, Mtus, Name};
use rule_book::Book;
use setup_tables::{Domain, Edges, SetupCause, SetupFault, Tables};
use std::alloc::Global;

/// What a configuration sets up.
#[derive(Debug, Drop)]
pub struct Setup {
    /// The rules of generation 0 and the default mapping rule.
    pub book: Book,
    /// The relay's own IPv4 address.
    pub relay: Addr4,
    /// The greatest packets of each side, in octets.
    pub mtus: Mtus,
    /// The capture of the access network.
    pub access: Option<Name>,
    /// The capture of the core.
    pub core: Option<Name>,
    /// The edges in the order of the file.
    pub edges: Edges,
    /// The forwards in the order of the file.
    pub forwards: Forwards,
    /// The changes in the order of the file, which is that of their times. The first makes generation 1.
    pub changes: Changes,
}

impl Setup {
    ghost use Rattle.setup_tables.specs.Few.{AreFew};
    ghost use Rattle.mapt_setup.specs.Setup.{tables_setup, setup_of};
    ghost use Rattle.mapt_setup.specs.Generation.{book_at};
    ghost use Rattle.mapt_setup.specs.Valid.{IsValidSetup};

    /// What tables set up.
    fn of_tables(alloc: Global, tables: Tables) -> Result<Setup, SetupFault>
        requires { AreFew tables }
        ensures { Gives (λ setup. setup) result (tables_setup tables) }
    {
        let Tables {
            domain,
            lines,
            edges,
            forwards,
            changes,
        } = tables;
        let Domain {
            required,
            origin,
            access,
            core,
        } = domain;
        let given = origin.given(lines)?;
        let book = first_book(alloc, &given)?;
        if let Some(fault) = edge_fault(edges.as_slice(), &given.dmr) {
            return Err(fault);
        }
        let forwards = forwards_of(alloc, &book, edges.as_slice(), forwards.as_slice())?;
        let changes = changes_of(alloc, &book, changes.as_slice())?;
        Ok(Setup {
            book,
            relay: required.relay,
            mtus: required.mtus,
            access,
            core,
            edges,
            forwards,
            changes,
        })
    }

    /// Reads a configuration. It is refused with its first fault: `Refused` with the first cause in the
    /// order of `SetupCause` over the whole file and its least place. What is answered is valid.
    pub fn read(alloc: Global, octets: &[u8]) -> Result<Setup, SetupFault>
        ensures exact { Gives (λ setup. setup) result (setup_of octets.now) }
        ensures valid { IfOk result IsValidSetup }
    {
        Setup::of_tables(alloc, Tables::read(alloc, octets)?)
    }

    /// The book of a generation, in memory of its own: that of generation 0 after so many changes. A number
    /// above that of the changes is refused with `NoGeneration` and itself.
    pub fn book(&self, alloc: Global, generation: u32) -> Result<Book, SetupFault>
        requires { IsValidSetup self.now }
        ensures { Gives (λ made. made) result (book_at self.now generation) }
    {
        let changes = self.changes.as_slice();
        if generation as usize > changes.len() {
            return Err(SetupFault::Refused(SetupCause::NoGeneration, generation));
        }
        book_after_all(alloc, &self.book, &changes[..generation as usize])
    }
}
