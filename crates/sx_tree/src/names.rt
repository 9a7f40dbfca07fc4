//! Names of which no two are equal.
ghost use Rattle.std.specs.Prelude.{◌≡◌, [], ◌∷◌, ◌++◌, Contains, IfErr, IfNone, IfOk, IfSome, IsTrue, OnErr, OnOk, length, slice_get};
ghost use Rattle.sx_tree.specs.MemberFault.{ExplainsMember};
ghost use Rattle.sx_tree.specs.Names.{AreAscending, AreBefore, AreDistinct, AreIndexed, IsIndex};

use crate::member_list::MemberFault;
use crate::text::Text;
use std::alloc::{AllocError, Global};
use std::collections::BTreeMap;
use std::collections::btree_map::Entry;
use std::marker::Model;

/// So many names are looked through one after another. Where there are more and they do not ascend, an index is kept.
const FEW_NAMES: usize = 32;

/// How a name is found.
#[derive(Drop)]
enum Index {
    /// The names ascend by their bytes, and are their own index.
    Ascending,
    /// There are few, in any order.
    Few,
    /// The place of each name.
    Places(Box<BTreeMap<Text, usize>>),
}

/// Names in the order in which they came, of which no two are equal.
#[derive(Drop)]
pub(crate) struct Names {
    texts: Vec<Text>,
    index: Index,
}

impl Model for Names {
    ghost use Rattle.std.specs.Prelude.{List, ℕ};
    ghost use Rattle.sx_tree.specs.Names.{AreDistinct, IsIndex};

    ghost Value = { List (List ℕ) };

    ghost view = { λ n. n.texts.items };

    ghost invariant = { λ n. AreDistinct n.texts.items × IsIndex n.texts.items n.index };
}

impl Names {
    pub(crate) fn new(alloc: Global) -> Names
        ensures { result ≡ [] }
    {
        Names {
            texts: Vec::new(alloc),
            index: Index::Ascending,
        }
    }

    pub(crate) fn as_slice(&self) -> &[Text]
        ensures same { result.now ≡ self.now }
        ensures distinct { AreDistinct self.now }
    {
        self.texts.as_slice()
    }

    /// The place of the name.
    pub(crate) fn find(&self, name: &Text) -> Option<usize>
        ensures found { IfSome result (λ place. slice_get self.now place ≡ Some name.now) }
        ensures none { IfNone result (Contains self.now name.now → ⊥) }
    {
        match &self.index {
            Index::Ascending => place_among(self.texts.as_slice(), name),
            Index::Few => place_of(self.texts.as_slice(), name.as_bytes()),
            Index::Places(places) => places.get(name).copied(),
        }
    }

    /// Adds a name that is not there. A fault changes nothing.
    pub(crate) fn push(&mut self, alloc: Global, name: Text) -> Result<(), MemberFault>
        ensures ok { OnOk result (self.new ≡ self.old ++ name ∷ []) }
        ensures new_name { OnOk result (Contains self.old name → ⊥) }
        ensures fault { IfErr result (ExplainsMember self.old name) }
        ensures err { OnErr result (self.new ≡ self.old) }
    {
        match self.texts.reserve(1) {
            Ok(()) => {}
            Err(_) => return Err(self.fault_of(&name)),
        }
        match note(alloc, &mut self.index, self.texts.as_slice(), &name) {
            Ok(None) => {
                self.texts.push_reserved(name);
                Ok(())
            }
            Ok(Some(place)) => Err(MemberFault::taken(place)),
            Err(_) => Err(self.fault_of(&name)),
        }
    }

    /// Why a name is not added where memory runs out: it is there already, or else memory alone is the cause.
    pub(crate) fn fault_of(&self, name: &Text) -> MemberFault
        ensures { ExplainsMember self.now name.now result }
    {
        match self.find(name) {
            Some(place) => MemberFault::taken(place),
            None => MemberFault::OutOfMemory,
        }
    }

    /// Gives back the room that no name takes.
    pub(crate) fn shrink_to_fit(&mut self)
        ensures { self.new ≡ self.old }
    {
        self.texts.shrink_to_fit();
    }
}

/// The place of the name.
fn place_of(names: &[Text], name: &[u8]) -> Option<usize>
    ensures found { IfSome result (λ place. slice_get names.now place ≡ Some name.now) }
    ensures none { IfNone result (Contains names.now name.now → ⊥) }
{
    for (place, other) in names.iter().enumerate() {
        if other.as_bytes() == name {
            return Some(place);
        }
    }
    None
}

/// The place of the name among names that ascend.
fn place_among(names: &[Text], name: &Text) -> Option<usize>
    requires { AreAscending names.now }
    ensures found { IfSome result (λ place. slice_get names.now place ≡ Some name.now) }
    ensures none { IfNone result (Contains names.now name.now → ⊥) }
{
    match names.binary_search(name) {
        Ok(place) => Some(place),
        Err(_) => None,
    }
}

/// Whether each of the names, which ascend, comes before this one.
fn are_before(names: &[Text], name: &Text) -> bool
    ensures { IsTrue result → AreAscending names.now → AreBefore names.now name.now }
{
    match names.last() {
        Some(last) => last < name,
        None => true,
    }
}

/// Notes the place of a name that comes behind the others, where there are many. Where one of them is the name, it
/// gives that one's place and notes nothing. A failure notes nothing.
fn note(
    alloc: Global,
    index: &mut Index,
    names: &[Text],
    name: &Text,
) -> Result<Option<usize>, AllocError>
    requires distinct { AreDistinct names.now }
    requires index { IsIndex names.now index.old }
    ensures new_name { IfOk result (λ found. IfNone found (Contains names.now name.now → ⊥)) }
    ensures found { IfOk result (λ found. IfSome found (λ place. slice_get names.now place ≡ Some name.now)) }
    ensures noted { IfOk result (λ found. IfNone found (IsIndex (names.now ++ name.now ∷ []) index.new)) }
    ensures kept { IfOk result (λ found. IfSome found (λ _. IsIndex names.now index.new)) }
    ensures err { OnErr result (IsIndex names.now index.new) }
{
    match index {
        Index::Places(places) => enter(alloc, places, names, name),
        Index::Ascending if are_before(names, name) => Ok(None),
        _ => match place_of(names, name.as_bytes()) {
            Some(place) => Ok(Some(place)),
            None => {
                *index = index_with(alloc, names, name)?;
                Ok(None)
            }
        },
    }
}

/// The index of the names, and of one that comes behind them, in any order.
fn index_with(alloc: Global, names: &[Text], name: &Text) -> Result<Index, AllocError>
    requires distinct { AreDistinct names.now }
    requires new_name { Contains names.now name.now → ⊥ }
    ensures { IfOk result (λ index. IsIndex (names.now ++ name.now ∷ []) index) }
{
    if names.len() < FEW_NAMES {
        return Ok(Index::Few);
    }
    let mut places = index_of(alloc, names)?;
    enter(alloc, &mut places, names, name)?;
    Ok(Index::Places(Box::new(alloc, places)?))
}

/// The place of each of the names.
fn index_of(alloc: Global, names: &[Text]) -> Result<BTreeMap<Text, usize>, AllocError>
    requires { AreDistinct names.now }
    ensures { IfOk result (AreIndexed names.now) }
{
    let mut places = BTreeMap::new(alloc);
    for place in 0..names.len() {
        enter(alloc, &mut places, &names[..place], &names[place])?;
    }
    Ok(places)
}

/// Enters the place of a name that comes behind the others. Where one of them is the name, it gives that one's place
/// and enters nothing. A failure enters nothing.
fn enter(
    alloc: Global,
    places: &mut BTreeMap<Text, usize>,
    names: &[Text],
    name: &Text,
) -> Result<Option<usize>, AllocError>
    requires { AreIndexed names.now places.old }
    ensures new_name { IfOk result (λ found. IfNone found (Contains names.now name.now → ⊥)) }
    ensures found { IfOk result (λ found. IfSome found (λ place. slice_get names.now place ≡ Some name.now)) }
    ensures entered { IfOk result (λ found. IfNone found (AreIndexed (names.now ++ name.now ∷ []) places.new)) }
    ensures kept { IfOk result (λ found. IfSome found (λ _. AreIndexed names.now places.new)) }
    ensures err { OnErr result (AreIndexed names.now places.new) }
{
    let key = name.copy(alloc)?;
    match places.entry(key)? {
        Entry::Occupied(entry) => Ok(Some(*entry.get())),
        Entry::Vacant(entry) => {
            entry.insert(names.len());
            Ok(None)
        }
    }
}
