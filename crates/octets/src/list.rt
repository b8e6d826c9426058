ghost use Rattle.std.specs.Prelude.{◌≡◌, ◌<◌, List as ListOf, [], ◌∷◌, ◌++◌, length, slice_set, OnOk, OnErr, IfOk};
ghost use Rattle.std.specs.List.{remove as without};

use crate::NoMemory;
use std::alloc::Global;
use std::marker::Model;

/// Values in their order, in memory of their own. A contract sees the list of them. The lists that types
/// of the domain hold are this one under a name of their own.
#[derive(Debug, Drop)]
pub struct List<T> {
    items: Vec<T>,
}

impl<T> Model for List<T> {
    ghost Value = { ListOf T };

    ghost view = { λ l. l.items.items };
}

impl<T: Drop> List<T> {
    /// No values.
    pub fn new(alloc: Global) -> List<T>
        ensures { result ≡ [] }
    {
        List {
            items: Vec::new(alloc),
        }
    }

    /// These values, which take no more memory.
    pub fn from_vec(items: Vec<T>) -> List<T>
        ensures { result ≡ items.items }
    {
        List { items }
    }

    /// Adds a value at the end.
    pub fn push(&mut self, item: T) -> Result<(), NoMemory>
        ensures ok { OnOk result (self.new ≡ self.old ++ item ∷ []) }
        ensures err { OnErr result (self.new ≡ self.old) }
    {
        self.items.push(item)?;
        Ok(())
    }

    /// Puts a value at this place, for the one that stood there.
    pub fn set(&mut self, at: usize, item: T)
        requires { at < length self.old }
        ensures { self.new ≡ slice_set self.old at item }
    {
        self.items[at] = item;
    }

    /// Takes the value at this place out.
    pub fn remove(&mut self, at: usize)
        requires { at < length self.old }
        ensures { self.new ≡ without self.old at }
    {
        self.items.remove(at);
    }

    /// The values.
    pub fn as_slice(&self) -> &[T]
        ensures { result.now ≡ self.now }
    {
        &self.items
    }
}

impl<T: Copy> List<T> {
    /// The same values once more.
    pub fn of(alloc: Global, items: &[T]) -> Result<List<T>, NoMemory>
        ensures { IfOk result (λ made. made ≡ items.now) }
    {
        Ok(List {
            items: Vec::from_slice(alloc, items)?,
        })
    }
}
