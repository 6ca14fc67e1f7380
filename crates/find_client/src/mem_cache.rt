//! A cache in memory.

ghost use Rattle.std.specs.Prelude.{◌≡◌, ◌≤◌, ◌∷◌, ◌⊎◌, [], IfOk, OnErr, OnOk, false, map, true};
ghost use Rattle.std.specs.Option.{option_copied};
ghost use Rattle.find_client.specs.Cache.{AsksOfCache, PutsInCache, kept, got, memory, said_by, told_of, value_at};
ghost use Rattle.find_client.specs.MemCache.{GetsByPlan, PutsByPlan, after_call, heard_call, is_bad_next, next_get, shown_mem_cache, value_in, value_of, with_value};

use crate::cache::{Cache, CacheAnswer, CachePut, VALUE_LIMIT};
use row_types::Faults;
use std::alloc::{AllocError, Global};
use std::marker::Model;
use std::snapshot::Snapshot;

/// A call of a cache in memory that was answered.
#[derive(Drop)]
pub enum CacheCall {
    /// A question.
    Got {
        /// The name that was asked for.
        name: String,
        /// What was answered.
        answer: Snapshot<CacheAnswer>,
    },
    /// A put.
    Put {
        /// The name under which bytes were to be kept.
        name: String,
        /// The bytes.
        bytes: Snapshot<Vec<u8>>,
        /// What was answered.
        answer: CachePut,
    },
}

/// A cache in memory that fails at the calls of listed numbers. Calls are numbered from 0; one that
/// wanted memory has no number, and leaves all as it was. It tells what it holds and what it was asked.
/// Contracts see it as a record.
#[derive(Drop)]
pub struct MemCache {
    held: Vec<(String, Vec<u8>)>,
    asked: Vec<CacheCall>,
    bad_calls: Vec<u64>,
    calls: u64,
    faults: Faults,
}

impl Model for MemCache {
    ghost use Rattle.std.specs.Prelude.{map};
    ghost use Rattle.find_client.specs.MemCache.{MemCacheFacts, heard_call, value_in};

    ghost Value = { MemCacheFacts };

    ghost view = { λ c. record {
      held = map value_in c.held.items;
      asked = map heard_call c.asked.items;
      bad_calls = c.bad_calls.items;
      calls = c.calls;
      faults = c.faults;
    } };
}

impl MemCache {
    /// The cache that holds these values by name, and fails at these calls.
    pub fn new(alloc: Global, held: Vec<(String, Vec<u8>)>, bad_calls: Vec<u64>) -> MemCache
        ensures { result ≡ record {
          held = map value_in held.items;
          asked = [];
          bad_calls = bad_calls.items;
          calls = 0;
          faults = 0;
        } }
    {
        MemCache {
            held,
            asked: Vec::new(alloc),
            bad_calls,
            calls: 0,
            faults: Faults::new(),
        }
    }

    /// The values by name; of two of one name the first counts.
    pub fn held(&self) -> &[(String, Vec<u8>)]
        ensures { map value_in result.now ≡ self.now.held }
    {
        self.held.as_slice()
    }

    /// The calls so far, in order.
    pub fn asked(&self) -> &[CacheCall]
        ensures { map heard_call result.now ≡ self.now.asked }
    {
        self.asked.as_slice()
    }

    /// Whether the next call fails.
    fn is_bad_next(&self) -> bool
        ensures { result ≡ is_bad_next self.now }
    {
        self.bad_calls.contains(&self.calls)
    }

    /// What a question for a name is answered next, or that memory was refused.
    fn next_get(&self, alloc: Global, name: &str) -> CacheAnswer
        ensures { (said_by result ≡ next_get self.now name.now) ⊎ (said_by result ≡ memory) }
    {
        if self.is_bad_next() {
            return CacheAnswer::Failed;
        }
        told_of(alloc, value_at(self.held.as_slice(), name))
    }

    /// Notes a call, and counts it where it failed; or leaves all as it is.
    fn note(&mut self, call: CacheCall, failed: bool) -> Result<(), AllocError>
        ensures ok { OnOk result (self.new ≡ after_call (heard_call call) failed self.old) }
        ensures err { OnErr result (self.new ≡ self.old) }
        ensures later { self.old.faults ≤ self.new.faults }
    {
        self.asked.push(call)?;
        self.calls = self.calls.saturating_add(1);
        if failed {
            self.faults.raise();
        }
        Ok(())
    }

    /// Holds one more value and notes its put, or leaves all as it is.
    fn keep(&mut self, alloc: Global, name: &str, bytes: &[u8]) -> Result<(), AllocError>
        ensures ok { OnOk result (self.new ≡ after_call (kept name.now bytes.now CachePut.Done) false
            (with_value name.now bytes.now self.old)) }
        ensures err { OnErr result (self.new ≡ self.old) }
    {
        let call = put_call(alloc, name, bytes, CachePut::Done)?;
        self.asked.reserve(1)?;
        put_first(&mut self.held, alloc, name, bytes)?;
        match self.asked.push(call) {
            Ok(()) => {}
            Err(_) => unreachable!(),
        }
        self.calls = self.calls.saturating_add(1);
        Ok(())
    }

    /// Answers a question and notes it, or leaves all as it is.
    fn answer_get(&mut self, alloc: Global, name: &str) -> CacheAnswer
        ensures plan { GetsByPlan self.old name.now (said_by result) self.new }
        ensures later { self.old.faults ≤ self.new.faults }
    {
        let failed = self.is_bad_next();
        let answer = self.next_get(alloc, name);
        if matches!(answer, CacheAnswer::OutOfMemory) {
            return answer;
        }
        let Ok(call) = get_call(alloc, name, &answer) else {
            return CacheAnswer::OutOfMemory;
        };
        match self.note(call, failed) {
            Ok(()) => answer,
            Err(_) => CacheAnswer::OutOfMemory,
        }
    }

    /// Answers a put and notes it, or leaves all as it is.
    fn answer_put(&mut self, alloc: Global, name: &str, bytes: &[u8]) -> CachePut
        ensures plan { PutsByPlan self.old name.now bytes.now result self.new }
        ensures later { self.old.faults ≤ self.new.faults }
    {
        if !self.is_bad_next() {
            return match self.keep(alloc, name, bytes) {
                Ok(()) => CachePut::Done,
                Err(_) => CachePut::OutOfMemory,
            };
        }
        let Ok(call) = put_call(alloc, name, bytes, CachePut::Failed) else {
            return CachePut::OutOfMemory;
        };
        match self.note(call, true) {
            Ok(()) => CachePut::Failed,
            Err(_) => CachePut::OutOfMemory,
        }
    }
}

/// The first value of a name.
fn value_at<'a>(held: &'a [(String, Vec<u8>)], name: &str) -> Option<&'a [u8]>
    ensures { option_copied result ≡ value_at name.now (map value_in held.now) }
{
    match held.split_first() {
        None => None,
        Some((first, rest)) => {
            if first.0.as_str() == name {
                Some(first.1.as_slice())
            } else {
                value_at(rest, name)
            }
        }
    }
}

/// What is said of a value: a copy of one that isn't too large.
fn told_of(alloc: Global, value: Option<&[u8]>) -> CacheAnswer
    ensures { (said_by result ≡ told_of (option_copied value.entry)) ⊎ (said_by result ≡ memory) }
{
    let Some(bytes) = value else {
        return CacheAnswer::Absent;
    };
    if bytes.len() > VALUE_LIMIT {
        return CacheAnswer::Absent;
    }
    match Vec::from_slice(alloc, bytes) {
        Ok(copy) => CacheAnswer::Held(copy),
        Err(_) => CacheAnswer::OutOfMemory,
    }
}

/// A put with its answer.
fn put_call(
    alloc: Global,
    name: &str,
    bytes: &[u8],
    answer: CachePut,
) -> Result<CacheCall, AllocError>
    ensures { IfOk result (λ call. heard_call call ≡ kept name.now bytes.now answer) }
{
    let name = String::from_str(alloc, name)?;
    let bytes = Vec::from_slice(alloc, bytes)?;
    Ok(CacheCall::Put {
        name,
        bytes: Snapshot::of(&bytes),
        answer,
    })
}

/// A question with its answer.
fn get_call(alloc: Global, name: &str, answer: &CacheAnswer) -> Result<CacheCall, AllocError>
    ensures { IfOk result (λ call. heard_call call ≡ got name.now (said_by answer.now)) }
{
    let name = String::from_str(alloc, name)?;
    Ok(CacheCall::Got {
        name,
        answer: Snapshot::of(answer),
    })
}

/// Puts copies of a name and of bytes in front of the values, or leaves them as they are.
fn put_first(
    held: &mut Vec<(String, Vec<u8>)>,
    alloc: Global,
    name: &str,
    bytes: &[u8],
) -> Result<(), AllocError>
    ensures ok { OnOk result
        (map value_in held.new.items ≡ value_of name.now bytes.now ∷ map value_in held.old.items) }
    ensures err { OnErr result (held.new.items ≡ held.old.items) }
{
    let name = String::from_str(alloc, name)?;
    let bytes = Vec::from_slice(alloc, bytes)?;
    held.insert(0, (name, bytes))?;
    Ok(())
}

impl Cache for MemCache {
    ghost shows = { shown_mem_cache };

    fn get(&mut self, alloc: Global, name: &str) -> CacheAnswer
        ensures asks { AsksOfCache (shown_mem_cache self.old) name.now result (shown_mem_cache self.new) }
        ensures plan { GetsByPlan self.old name.now (said_by result) self.new }
    {
        self.answer_get(alloc, name)
    }

    fn put(&mut self, alloc: Global, name: &str, bytes: &[u8]) -> CachePut
        ensures puts { PutsInCache (shown_mem_cache self.old) name.now bytes.now result (shown_mem_cache self.new) }
        ensures plan { PutsByPlan self.old name.now bytes.now result self.new }
    {
        self.answer_put(alloc, name, bytes)
    }
}
