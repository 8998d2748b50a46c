use c6x_base::Bytes;
use std::alloc::{AllocError, Global};
use std::marker::Model;

/// A string table: a zero byte, and then names, each ended by one (gABI chapter 4, "String Table").
#[derive(Debug, Drop)]
pub struct NameTable {
    bytes: Vec<u8>,
}

impl Model for NameTable {
    ghost use Rattle.std.specs.Prelude.{List, ℕ};

    ghost Value = { List ℕ };

    ghost view = { λ t. t.bytes.items };
}

impl NameTable {
    ghost use Rattle.std.specs.Prelude.{◌≡◌, ℕ, List, [], ◌∷◌, ◌++◌, ◌^◌, ◌<◌, length, IfOk, OnOk, Some};
    ghost use Rattle.c6x_elf_headers.specs.Names.{IsName, name_of, name_row, name_table};

    /// The table of no names.
    #[tactic(auto, unfolding(crate::specs::Names::name_table))]
    pub fn new(alloc: Global) -> Result<NameTable, AllocError>
        ensures { IfOk result (λ table. table ≡ name_table []) }
    {
        let mut bytes = Vec::new(alloc);
        bytes.push(0)?;
        Ok(NameTable { bytes })
    }

    /// Puts a name behind the others; the answer is its place. A name that has no zero byte is found there again.
    pub fn add(&mut self, name: &[u8]) -> Result<u32, AllocError>
        requires { length self.old < 2 ^ 32 }
        ensures place { IfOk result (λ place. place ≡ length self.old) }
        ensures row { OnOk result (self.new ≡ self.old ++ name_row name.now) }
        ensures table { OnOk result ((names : List (List ℕ)) → self.old ≡ name_table names → self.new ≡ name_table (names ++ name.now ∷ [])) }
        ensures back { OnOk result (IsName name.now → name_of self.new (length self.old) ≡ Some name.now) }
    {
        self.add_joined(&[], name)
    }

    /// Puts a name of two parts behind the others; the answer is its place.
    #[tactic(auto, using(crate::proofs::NameTables::table_joined, crate::proofs::NameTables::joined_behind))]
    pub fn add_joined(&mut self, front: &[u8], name: &[u8]) -> Result<u32, AllocError>
        requires { length self.old < 2 ^ 32 }
        ensures place { IfOk result (λ place. place ≡ length self.old) }
        ensures row { OnOk result (self.new ≡ self.old ++ name_row (front.now ++ name.now)) }
        ensures table { OnOk result ((names : List (List ℕ)) → self.old ≡ name_table names → self.new ≡ name_table (names ++ (front.now ++ name.now) ∷ [])) }
        ensures back { OnOk result (IsName (front.now ++ name.now) → name_of self.new (length self.old) ≡ Some (front.now ++ name.now)) }
    {
        let place = self.bytes.len() as u32;
        self.bytes.extend_from_slice(front)?;
        self.bytes.extend_from_slice(name)?;
        self.bytes.push(0)?;
        Ok(place)
    }

    /// How many bytes there are.
    pub fn len(&self) -> usize
        ensures { result ≡ length self.now }
    {
        self.bytes.len()
    }

    /// The bytes.
    pub fn as_bytes(&self) -> &[u8]
        ensures { result.now ≡ self.now }
    {
        self.bytes.as_slice()
    }

    /// The bytes, of which the table lets go.
    pub fn into_bytes(self) -> Bytes
        ensures { result ≡ self }
    {
        Bytes::of(self.bytes)
    }
}
