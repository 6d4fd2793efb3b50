//! A `Vec` and a `String` that contracts see as lists.
ghost use Rattle.std.specs.Prelude.{◌≡◌, ◌==◌, ◌↔◌, [], ◌∷◌, ◌++◌, length, IsTrue, OnOk, OnErr};
ghost use Rattle.std.specs.String.{string_bytes};
ghost use Rattle.std.proofs.Common.{rules};
ghost use Rattle.std.specs.Cmp.Rules.{comparing};
ghost use Rattle.std.specs.Cmp.Lexicographic.{pointwise};

use std::alloc::AllocError;
use std::marker::Model;

/// A `Vec` that contracts see as the list of its elements.
///
/// It is made from a `Vec` and gives it back without taking memory.
#[derive(Debug, Drop)]
pub struct Items<T> {
    vec: Vec<T>,
}

impl<T> Model for Items<T> {
    ghost use Rattle.std.specs.Prelude.{List};
    ghost use Rattle.std.specs.Coded.{coded_list};

    ghost Value = { List T };

    ghost coded = { coded_list T.code };

    ghost view = { λ it. it.vec.items };
}

impl<T> Items<T> {
    ghost use Rattle.std.specs.Borrow.{sem};
    ghost use Rattle.lists.specs.Lending.{LendsSlice};

    pub fn new(vec: Vec<T>) -> Items<T>
        ensures { result ≡ vec.items }
    {
        Items { vec }
    }

    pub fn into_vec(self) -> Vec<T>
        ensures { result.items ≡ self }
    {
        let Items { vec } = self;
        vec
    }

    pub fn as_slice(&self) -> &[T]
        ensures { result.now ≡ self.now }
    {
        self.vec.as_slice()
    }

    /// The elements, to be changed in place.
    pub fn as_mut_slice(&mut self) -> &mut [T]
        ensures* writes_back { sem 𝓛 (LendsSlice T.row self.entry result) }
        ensures value { result.now ≡ self.old }
    {
        self.vec.as_mut_slice()
    }

    pub fn len(&self) -> usize
        ensures { result ≡ length self.now }
    {
        self.vec.len()
    }

    pub fn is_empty(&self) -> bool
        ensures { IsTrue result ↔ (length self.now ≡ 0) }
    {
        self.vec.is_empty()
    }
}

impl<T: Drop> Items<T> {
    /// Puts one more element behind the others.
    pub fn push(&mut self, item: T) -> Result<(), AllocError>
        ensures pushed { OnOk result (self.new ≡ self.old ++ (item ∷ [])) }
        ensures stays { OnErr result (self.new ≡ self.old) }
    {
        Ok(self.vec.push(item)?)
    }
}

impl<T: PartialEq> PartialEq for Items<T> {
    ghost eq = { pointwise T.eq };

    ghost laws = { Prim.search (comparing, rules) };

    fn eq(&self, other: &Items<T>) -> bool {
        self.as_slice() == other.as_slice()
    }
}

/// A `String` that contracts see as its bytes.
#[derive(Debug, Drop)]
pub struct Text {
    string: String,
}

impl Model for Text {
    ghost use Rattle.std.specs.Prelude.{List, ℕ};
    ghost use Rattle.std.specs.String.{string_bytes};

    ghost Value = { List ℕ };

    ghost view = { λ t. string_bytes t.string };
}

impl Text {
    pub fn new(string: String) -> Text
        ensures { result ≡ string_bytes string }
    {
        Text { string }
    }

    pub fn into_string(self) -> String
        ensures { string_bytes result ≡ self }
    {
        let Text { string } = self;
        string
    }

    pub fn as_str(&self) -> &str
        ensures { result.now ≡ self.now }
    {
        self.string.as_str()
    }

    pub fn len(&self) -> usize
        ensures { result ≡ length self.now }
    {
        self.string.as_str().len()
    }

    pub fn is_empty(&self) -> bool
        ensures { IsTrue result ↔ (length self.now ≡ 0) }
    {
        self.len() == 0
    }
}

impl PartialEq for Text {
    ghost eq = { pointwise ◌==◌ };

    ghost laws = { Prim.search (comparing, rules) };

    fn eq(&self, other: &Text) -> bool {
        self.as_str() == other.as_str()
    }
}
