//! Names and values side by side.
ghost use Rattle.std.specs.Prelude.{◌≡◌, [], ◌∷◌, ◌++◌, Contains, IfErr, IfNone, IfSome, OnErr, OnOk, length, map, slice_get};
ghost use Rattle.sx_tree.specs.Names.{AreDistinct, names_of};

use crate::member_list::MemberFault;
use crate::names::Names;
use crate::text::Text;
use std::alloc::Global;
use std::marker::Model;

/// Values in the order in which they came, each under a name that no other has.
#[derive(Drop)]
pub(crate) struct NamedList<T> {
    names: Names,
    values: Vec<T>,
}

impl<T> Model for NamedList<T> {
    ghost use Rattle.std.specs.Prelude.{List, ℕ, ◌≡◌, length};
    ghost use Rattle.std.specs.List.{zip};
    ghost use Rattle.std.specs.Coded.{coded_list, coded×, coded_ℕ};

    ghost Value = { List (List ℕ × T) };

    ghost coded = { coded_list (coded× (coded_list coded_ℕ) T.code) };

    ghost view = { λ m. zip m.names m.values.items };

    ghost invariant = { λ m. length m.values.items ≡ length m.names };
}

impl<T> NamedList<T> {
    pub(crate) fn new(alloc: Global) -> NamedList<T>
        ensures { result ≡ [] }
    {
        NamedList {
            names: Names::new(alloc),
            values: Vec::new(alloc),
        }
    }

    /// The names, in order.
    pub(crate) fn names(&self) -> &[Text]
        ensures same { result.now ≡ names_of self.now }
        ensures distinct { AreDistinct (names_of self.now) }
    {
        self.names.as_slice()
    }

    /// The place of the value with the name.
    pub(crate) fn find(&self, name: &Text) -> Option<usize>
        ensures found { IfSome result (λ place. slice_get (names_of self.now) place ≡ Some name.now) }
        ensures none { IfNone result (Contains (names_of self.now) name.now → ⊥) }
    {
        self.names.find(name)
    }

    /// The values, in order.
    pub(crate) fn values(&self) -> &[T]
        ensures same { result.now ≡ map (λ m. m.1) self.now }
    {
        self.values.as_slice()
    }
}

impl<T: Drop> NamedList<T> {
    ghost use Rattle.sx_tree.specs.MemberFault.{ExplainsMember};

    /// Adds a value under a name that no other has. A fault changes nothing.
    pub(crate) fn push(&mut self, alloc: Global, name: Text, value: T) -> Result<(), MemberFault>
        ensures ok { OnOk result (self.new ≡ self.old ++ (name, value) ∷ []) }
        ensures new_name { OnOk result (Contains (names_of self.old) name → ⊥) }
        ensures fault { IfErr result (ExplainsMember (names_of self.old) name) }
        ensures err { OnErr result (self.new ≡ self.old) }
    {
        match self.values.reserve(1) {
            Ok(()) => {}
            Err(_) => return Err(self.names.fault_of(&name)),
        }
        self.names.push(alloc, name)?;
        self.values.push_reserved(value);
        Ok(())
    }

    /// Gives back the room that no name and no value takes.
    pub(crate) fn shrink_to_fit(&mut self)
        ensures { self.new ≡ self.old }
    {
        self.names.shrink_to_fit();
        self.values.shrink_to_fit();
    }
}
