ghost use Rattle.std.specs.Prelude.{◌≡◌, ◌<◌, [], ◌∷◌, ◌++◌, length, IfSome, OnOk, OnErr, slice_get, slice_set};
ghost use Rattle.std.specs.List.{remove};

use crate::Note;
use l4_headers::Ports;
use octets::{NoMemory, Parcel, Parcels};
use slab::Slab;
use std::alloc::Global;
use std::marker::Model;
use std::mem;

/// Notes in the order in which they were made. A contract sees the list of them.
#[derive(Drop)]
pub(crate) struct Notes {
    slab: Slab<Note>,
    /// The slab's keys, in the order in which the notes were made.
    keys: Vec<usize>,
}

impl Model for Notes {
    ghost use Rattle.std.specs.Prelude.{List};
    ghost use Rattle.frag_table.specs.declared.note.Note.{Note as NoteType};

    ghost Value = { List NoteType };

    ghost use Rattle.frag_table.specs.Listed.{listed, AreKeys};

    ghost view = { λ n. listed n.slab n.keys.items };

    ghost invariant = { λ n. AreKeys n.slab n.keys.items };
}

impl Notes {
    /// No notes.
    pub(crate) fn new(alloc: Global) -> Notes
        ensures { result ≡ [] }
    {
        Notes {
            slab: Slab::new(alloc),
            keys: Vec::new(alloc),
        }
    }

    /// How many notes there are.
    pub(crate) fn len(&self) -> usize
        ensures { result ≡ length self.now }
    {
        self.keys.len()
    }

    /// The note at this place.
    pub(crate) fn get(&self, at: usize) -> &Note
        requires { at < length self.now }
        ensures { slice_get self.now at ≡ Some result.now }
    {
        &self.slab[self.keys[at]]
    }

    /// Adds a note at the end.
    pub(crate) fn push(&mut self, note: Note) -> Result<(), NoMemory>
        ensures ok { OnOk result (self.new ≡ self.old ++ note ∷ []) }
        ensures err { OnErr result (self.new ≡ self.old) }
    {
        self.keys.reserve(1)?;
        let key = self.slab.insert(note)?;
        self.keys.push_reserved(key);
        Ok(())
    }

    /// Removes the note at this place, with what it holds.
    pub(crate) fn remove(&mut self, at: usize)
        requires { at < length self.old }
        ensures { self.new ≡ remove self.old at }
    {
        let key = self.keys.remove(at);
        self.slab.try_remove(key);
    }

    /// Sets the ports of the note at this place, and hands out what it held.
    pub(crate) fn set_ports(&mut self, alloc: Global, at: usize, ports: Ports) -> Parcels
        requires { at < length self.old }
        ensures held { IfSome (slice_get self.old at) (λ note. result ≡ note.held) }
        ensures after { IfSome (slice_get self.old at)
            (λ note. self.new ≡ slice_set self.old at (record note { ports = Some ports; held = [] })) }
    {
        let note = &mut self.slab[self.keys[at]];
        note.ports = Some(ports);
        mem::replace(&mut note.held, Parcels::new(alloc))
    }

    /// Adds a parcel to those that the note at this place holds.
    pub(crate) fn hold(&mut self, at: usize, parcel: Parcel) -> Result<(), NoMemory>
        requires { at < length self.old }
        ensures ok { OnOk result (IfSome (slice_get self.old at)
            (λ note. self.new ≡ slice_set self.old at (record note { held = note.held ++ parcel ∷ [] }))) }
        ensures err { OnErr result (self.new ≡ self.old) }
    {
        let note = &mut self.slab[self.keys[at]];
        note.held.push(parcel)
    }
}
