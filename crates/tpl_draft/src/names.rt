//! Names, numbered in the order in which they are declared.

ghost use Rattle.std.specs.Prelude.{◌≡◌, ◌<◌, ◌≤◌, ◌-◌, ◌++◌, [], ◌∷◌, not, Some, IfOk, IfErr, OnOk, OnErr, IfSome, false, map, length, position, slice_get, string_bytes, if◌then◌else◌, bytes_eq};
ghost use Rattle.tpl_draft.specs.Prelude.{IsTwice, NamesFaultIs, NoneTwiceBelow, has_name, place, some_twice};

use indexmap::IndexSet;
use std::alloc::{AllocError, Global};
use std::marker::Model;

/// Names without repeats, which contracts see as the list of their bytes.
#[derive(Drop)]
pub struct Names {
    set: IndexSet<String>,
}

impl Model for Names {
    ghost use Rattle.std.specs.Prelude.{List, ℕ, map, string_bytes};

    ghost Value = { List (List ℕ) };

    ghost view = { λ n. map string_bytes n.set.keys };
}

impl Names {
    /// No names yet.
    pub fn new(alloc: Global) -> Names
        ensures { result ≡ [] }
    {
        Names {
            set: IndexSet::new(alloc),
        }
    }

    /// Adds a name behind the others. True where it is new; a name that is there stays where it is.
    pub fn add(&mut self, name: String) -> Result<bool, AllocError>
        ensures fresh { IfOk result (λ added. added ≡ not (has_name self.old (string_bytes name))) }
        ensures ok { IfOk result (λ added. self.new ≡ (if added
            then self.old ++ string_bytes name ∷ [] else self.old)) }
        ensures err { OnErr result (self.new ≡ self.old) }
    {
        let (_, added) = self.set.insert_full(name)?;
        Ok(added)
    }

    /// How many names there are.
    pub fn len(&self) -> usize
        ensures { result ≡ length self.now }
    {
        self.set.len()
    }

    /// The name of a number.
    pub fn name(&self, number: usize) -> &str
        requires { number < length self.now }
        ensures { slice_get self.now number ≡ Some result.now }
    {
        self.set.as_slice()[number].as_str()
    }

    /// The number of a name.
    pub fn number(&self, name: &str) -> Option<usize>
        ensures number { result ≡ position (bytes_eq name.now) self.now }
        ensures within { IfSome result (λ n. n < length self.now) }
    {
        self.set.get_index_of(name)
    }

    /// Whether one of the names is this.
    pub fn has(&self, name: &str) -> bool
        ensures { result ≡ has_name self.now name.now }
    {
        self.set.contains(name)
    }

    /// The number of a name; 0 of any other.
    pub fn place(&self, name: &str) -> usize
        ensures place { result ≡ place self.now name.now }
        ensures within { result ≤ length self.now - 1 }
    {
        match self.number(name) {
            Some(at) => at,
            None => 0,
        }
    }
}

/// Why names could not be numbered.
#[derive(Clone, Copy, Debug, PartialEq, Eq)]
pub enum NamesFault {
    /// The name at this place stands before it too, and none at an earlier place does.
    Twice(usize),
    Memory,
}

impl From<AllocError> for NamesFault {
    ghost use Rattle.std.specs.Prelude.{◌≡◌};
    ghost use Rattle.tpl_draft.specs.declared.names.NamesFault.TheVariants.{Memory};

    ghost from_gives = { λ _ e. e ≡ Memory };

    fn from(_e: AllocError) -> NamesFault {
        NamesFault::Memory
    }
}

/// Adds a copy of a name behind the others. True where it is new.
fn add_copy(names: &mut Names, name: &String) -> Result<bool, AllocError>
    ensures fresh { IfOk result (λ added. added
        ≡ not (has_name names.old (string_bytes name.now))) }
    ensures ok { IfOk result (λ added. names.new ≡ (if added
        then names.old ++ string_bytes name.now ∷ [] else names.old)) }
{
    names.add(name.clone()?)
}

/// Numbers names in order. The first name that stands twice is refused.
pub fn number_names(alloc: Global, names: &[String]) -> Result<Names, NamesFault>
    ensures ok { IfOk result (λ n. n ≡ map string_bytes names.now) }
    ensures distinct { OnOk result (NoneTwiceBelow (map string_bytes names.now)
        (length names.now)) }
    ensures none { OnOk result (some_twice (map string_bytes names.now) ≡ false) }
    ensures fault { IfErr result (λ e. NamesFaultIs (map string_bytes names.now) e) }
    ensures twice { IfErr result (λ e. IsTwice (map string_bytes names.now) e) }
{
    let mut numbered = Names::new(alloc);
    for (i, name) in names.iter().enumerate() {
        if !add_copy(&mut numbered, name)? {
            return Err(NamesFault::Twice(i));
        }
    }
    Ok(numbered)
}

/// All names of a graph.
#[derive(Drop)]
pub struct Tables {
    pub inputs: Names,
    pub tokens: Names,
    pub tasks: Names,
    pub labels: Names,
    pub sites: Names,
}
