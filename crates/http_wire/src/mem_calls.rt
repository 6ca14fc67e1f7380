//! The calls of a stream in memory.

ghost use Rattle.std.specs.Prelude.{◌≡◌, ◌∷◌, IfOk, Some, []};
ghost use Rattle.std.specs.Option.{option_copied};
ghost use Rattle.http_wire.specs.Calls.{gave, took};
ghost use Rattle.http_wire.specs.MemCalls.{call_of, call_bytes, is_took};
ghost use Rattle.http_wire.specs.Told.{Gains};

use std::alloc::{AllocError, Global};
use std::marker::Model;

/// A call of a stream in memory: a read that gave bytes, or a write that took some.
#[derive(Drop)]
pub struct MemCall {
    is_write: bool,
    bytes: Vec<u8>,
}

impl Model for MemCall {
    ghost use Rattle.http_wire.specs.Calls.{StreamCall};
    ghost use Rattle.http_wire.specs.MemCalls.{call_of};

    ghost Value = { StreamCall };

    ghost view = { λ c. call_of c.is_write c.bytes.items };
}

impl MemCall {
    /// A call that gave these bytes, or took them.
    fn new(alloc: Global, is_write: bool, bytes: &[u8]) -> Result<MemCall, AllocError>
        ensures { IfOk result (λ call. call ≡ call_of is_write bytes.now) }
    {
        let mut all = Vec::new(alloc);
        all.extend_from_slice(bytes)?;
        Ok(MemCall {
            is_write,
            bytes: all,
        })
    }

    /// Whether it is a write.
    pub fn is_write(&self) -> bool
        ensures { result ≡ is_took self.now }
    {
        self.is_write
    }

    /// The bytes that it gave or took.
    pub fn bytes(&self) -> &[u8]
        ensures { result.now ≡ call_bytes self.now }
    {
        self.bytes.as_slice()
    }
}

/// The calls of a stream in memory, in order. Where memory for one is refused, they aren't told from
/// then on. Contracts see them as their list, where it is told.
#[derive(Drop)]
pub(crate) struct MemCalls {
    alloc: Global,
    told: Option<Vec<MemCall>>,
}

impl Model for MemCalls {
    ghost use Rattle.std.specs.Prelude.{List, Option};
    ghost use Rattle.std.specs.Option.{option_map};
    ghost use Rattle.http_wire.specs.Calls.{StreamCall};

    ghost Value = { Option (List StreamCall) };

    ghost view = { λ c. option_map (λ v. v.items) c.told };
}

impl MemCalls {
    /// None yet.
    pub(crate) fn new(alloc: Global) -> MemCalls
        ensures { result ≡ Some [] }
    {
        MemCalls {
            alloc,
            told: Some(Vec::new(alloc)),
        }
    }

    /// The calls, where they are told.
    pub(crate) fn told(&self) -> Option<&[MemCall]>
        ensures { option_copied result ≡ self.now }
    {
        self.told.as_ref().map(|told| told.as_slice())
    }

    /// A read gave these bytes.
    pub(crate) fn gave(&mut self, bytes: &[u8])
        ensures { Gains self.old (gave bytes.now ∷ []) self.new }
    {
        self.note(false, bytes);
    }

    /// A write took these bytes.
    pub(crate) fn took(&mut self, bytes: &[u8])
        ensures { Gains self.old (took bytes.now ∷ []) self.new }
    {
        self.note(true, bytes);
    }

    // One call more.
    fn note(&mut self, is_write: bool, bytes: &[u8])
        ensures { Gains self.old (call_of is_write bytes.now ∷ []) self.new }
    {
        let Some(told) = &mut self.told else {
            return;
        };
        let Ok(call) = MemCall::new(self.alloc, is_write, bytes) else {
            self.told = None;
            return;
        };
        if told.push(call).is_err() {
            self.told = None;
        }
    }
}
