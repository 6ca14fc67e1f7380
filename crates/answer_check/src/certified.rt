//! The check of a file's bytes, and what it hands out.

ghost use Rattle.std.specs.Prelude.{◌≡◌, ◌↔◌, List, Option, ℕ, IsOk, IsErrAnd, IfNone, IfSome, IfOk, IfErr};
ghost use Rattle.std.specs.Option.{option_copied};
ghost use Rattle.file_formats.specs.Table.{IsSectionAnswer};
ghost use Rattle.answer_check.specs.Certified.{IsCertified, is_of_class};
ghost use Rattle.answer_check.specs.Refusal.{PassesIdentity, RefusesBytes, RefusesIdentity};

use elf_classify::{ident, section_of};
use row_types::{BuildId, Ident, Kind, Why};
use std::marker::Model;

/// Why bytes are not certified. The variants stand in the order of the tests.
#[derive(Clone, Copy, PartialEq, Eq)]
pub enum CheckFault {
    /// The file has no identity, for this reason.
    Plain(Why),
    /// The file has this other build-id.
    OtherId(BuildId),
    /// The file has the build-id and isn't of the class that is asked for.
    OtherClass(Ident),
}

/// Bytes of a file that has the kept build-id and class. Contracts see it as a record of the class,
/// the id's bytes and the file's bytes.
#[derive(Drop)]
pub struct Certified {
    kind: Kind,
    id: BuildId,
    bytes: Vec<u8>,
}

impl Model for Certified {
    ghost use Rattle.answer_check.specs.Certified.{CertifiedFacts, IsCertified};

    ghost Value = { CertifiedFacts };

    ghost view = { λ c. record { kind = c.kind; id = c.id; bytes = c.bytes.items } };

    ghost invariant = { λ c. IsCertified c.kind c.id c.bytes.items };
}

/// Whether the file is of the class.
fn is_of(kind: Kind, ident: &Ident) -> bool
    ensures { result ≡ is_of_class kind ident.now }
{
    match kind {
        Kind::Executable => ident.exec,
        Kind::Debuginfo => ident.debug,
    }
}

/// Why a file of this identity is not one of this id and class, where it isn't.
pub(crate) fn other_than(kind: Kind, id: &BuildId, ident: Ident) -> Option<CheckFault>
    ensures fault { IfSome result (RefusesIdentity kind id.now ident) }
    ensures none { IfNone result (PassesIdentity kind id.now ident) }
{
    if ident.id != *id {
        return Some(CheckFault::OtherId(ident.id));
    }
    if !is_of(kind, &ident) {
        return Some(CheckFault::OtherClass(ident));
    }
    None
}

/// Why the bytes are not a file of this id and class, where they aren't.
fn fault_of(kind: Kind, id: &BuildId, bytes: &[u8]) -> Option<CheckFault>
    ensures fault { IfSome result (RefusesBytes kind id.now bytes.now) }
    ensures none { IfNone result (IsCertified kind id.now bytes.now) }
{
    match ident(bytes) {
        Ok(ident) => other_than(kind, id, ident),
        Err(why) => Some(CheckFault::Plain(why)),
    }
}

/// Certifies that the bytes are a file of this class and build-id, or hands them back with the
/// first reason why they aren't. It takes no memory.
pub fn certify(kind: Kind, id: &BuildId, bytes: Vec<u8>) -> Result<Certified, (CheckFault, Vec<u8>)>
    ensures ok { IfOk result (λ c. c ≡ record { kind = kind; id = id.now; bytes = bytes.items }) }
    ensures certified { IsOk result ↔ IsCertified kind id.now bytes.items }
    ensures refused { IfErr result (λ e. RefusesBytes kind id.now bytes.items e.0) }
    ensures only { (fault : CheckFault) → RefusesBytes kind id.now bytes.items fault
        → IsErrAnd result (λ e. e.0 ≡ fault) }
    ensures same { IfErr result (λ e. e.1 ≡ bytes) }
{
    match fault_of(kind, id, &bytes) {
        Some(fault) => Err((fault, bytes)),
        None => Ok(Certified {
            kind,
            id: *id,
            bytes,
        }),
    }
}

impl Certified {
    /// The class that the file is certified for.
    pub fn kind(&self) -> Kind
        ensures { result ≡ self.now.kind }
    {
        self.kind
    }

    /// The build-id that the file is certified for.
    pub fn id(&self) -> &BuildId
        ensures { result.now ≡ self.now.id }
    {
        &self.id
    }

    /// The file's bytes.
    pub fn bytes(&self) -> &[u8]
        ensures value { result.now ≡ self.now.bytes }
        ensures certified { IsCertified self.now.kind self.now.id result.now }
    {
        &self.bytes
    }

    /// The bytes of the first section that has this name, has contents and isn't compressed.
    pub fn section(&self, name: &[u8]) -> Option<&[u8]>
        ensures answer { IsSectionAnswer self.now.bytes name.now (option_copied result) }
        ensures only { (r : Option (List ℕ))
            → IsSectionAnswer self.now.bytes name.now r → option_copied result ≡ r }
    {
        section_of(&self.bytes, name)
    }
}
