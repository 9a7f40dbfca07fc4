//! Values under names of which no two are equal.
ghost use Rattle.std.specs.Prelude.{◌≡◌, ◌^◌, ◌-◌, [], ◌∷◌, ◌++◌, Contains, IfErr, IfNone, IfSome, OnErr, OnOk, map, min, slice_get};
ghost use Rattle.sx_tree.specs.declared.member_list.MemberFault.TheVariants.{Taken};
ghost use Rattle.sx_tree.specs.Names.{AreDistinct, names_of};

use crate::named_list::NamedList;
use crate::text::Text;
use std::alloc::Global;
use std::marker::Model;
use thiserror::Error;

/// Why a member was not added.
#[derive(Clone, Copy, Debug, PartialEq, Eq, Drop, Error)]
pub enum MemberFault {
    /// The member at this place, counted from 0, has the name. The place is 4,294,967,295 where it is
    /// greater.
    #[error("member {index} has the name")]
    Taken { index: u32 },
    #[error("out of memory")]
    OutOfMemory,
}

impl MemberFault {
    /// The fault of a name that the member at this place has.
    pub(crate) fn taken(place: usize) -> MemberFault
        ensures { result ≡ Taken (min place (2 ^ 32 - 1)) }
    {
        MemberFault::Taken {
            index: place.min(u32::MAX as usize) as u32,
        }
    }
}

/// Values in the order in which they came, each under a name that no other has.
pub struct MemberList<T> {
    /// None where there are no members, which then take no memory of their own.
    list: Option<Box<NamedList<T>>>,
}

// One call wherever members are let go, whether there are any or none.
impl<T: Drop> Drop for MemberList<T> {
    fn drop(self) {
        let MemberList { list: _ } = self;
    }
}

impl<T> Model for MemberList<T> {
    ghost use Rattle.std.specs.Prelude.{List, ℕ};
    ghost use Rattle.std.specs.Coded.{coded_list, coded×, coded_ℕ};

    ghost Value = { List (List ℕ × T) };

    ghost coded = { coded_list (coded× (coded_list coded_ℕ) T.code) };

    ghost use Rattle.sx_tree.specs.Names.{boxed_members};

    ghost view = { λ m. boxed_members m.list };
}

impl<T> MemberList<T> {
    /// No members.
    pub fn new(_alloc: Global) -> MemberList<T>
        ensures { result ≡ [] }
    {
        MemberList { list: None }
    }

    /// The names, in order.
    pub fn names(&self) -> &[Text]
        ensures same { result.now ≡ names_of self.now }
        ensures distinct { AreDistinct (names_of self.now) }
    {
        match &self.list {
            Some(list) => list.names(),
            None => &[],
        }
    }

    /// The place of the member with the name.
    pub fn find(&self, name: &Text) -> Option<usize>
        ensures found { IfSome result (λ place. slice_get (names_of self.now) place ≡ Some name.now) }
        ensures none { IfNone result (Contains (names_of self.now) name.now → ⊥) }
    {
        match &self.list {
            Some(list) => list.find(name),
            None => None,
        }
    }

    /// The values, in order.
    pub fn values(&self) -> &[T]
        ensures same { result.now ≡ map (λ m. m.1) self.now }
    {
        match &self.list {
            Some(list) => list.values(),
            None => &[],
        }
    }
}

impl<T: Drop> MemberList<T> {
    ghost use Rattle.sx_tree.specs.MemberFault.{ExplainsMember};

    /// Adds a member at the end.
    ///
    /// # Errors
    ///
    /// `Taken` where a member has the name; then `OutOfMemory`. A fault changes nothing.
    pub fn push(&mut self, alloc: Global, name: Text, value: T) -> Result<(), MemberFault>
        ensures ok { OnOk result (self.new ≡ self.old ++ (name, value) ∷ []) }
        ensures new_name { OnOk result (Contains (names_of self.old) name → ⊥) }
        ensures fault { IfErr result (ExplainsMember (names_of self.old) name) }
        ensures err { OnErr result (self.new ≡ self.old) }
    {
        match &mut self.list {
            Some(list) => list.push(alloc, name, value),
            None => {
                let mut list = match Box::new(alloc, NamedList::new(alloc)) {
                    Ok(list) => list,
                    Err(_) => return Err(MemberFault::OutOfMemory),
                };
                list.push(alloc, name, value)?;
                self.list = Some(list);
                Ok(())
            }
        }
    }

    /// Gives back the room that no member takes, once all have come.
    pub fn shrink_to_fit(&mut self)
        ensures { self.new ≡ self.old }
    {
        if let Some(list) = &mut self.list {
            list.shrink_to_fit();
        }
    }
}
