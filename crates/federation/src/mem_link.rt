//! A link in memory.

ghost use Rattle.std.specs.Prelude.{◌≡◌, ◌≤◌, ◌↔◌, [], IfOk, IsTrue, map};
ghost use Rattle.federation.specs.Heard.{memory, said_by};
ghost use Rattle.federation.specs.Link.{AsksOfLink};
ghost use Rattle.federation.specs.MemLink.{AnswersScript, GivesScripted, count_said, heard_one, next_said, shown_mem_link};
ghost use Rattle.webapi_routes.specs.Printed.{printed};

use crate::link::{Link, LinkAnswer};
use row_types::Faults;
use std::alloc::{AllocError, Global};
use std::collections::VecDeque;
use std::marker::Model;
use std::snapshot::Snapshot;
use std::sync::Wait;
use webapi_routes::{Route, print};

/// A question that a link in memory was asked. Contracts see it with its answer.
#[derive(Drop)]
pub struct LinkQuestion {
    target: Vec<u8>,
    hops: u64,
    route: Snapshot<Route>,
    answer: Snapshot<LinkAnswer>,
}

impl Model for LinkQuestion {
    ghost use Rattle.std.specs.Prelude.{◌≡◌};
    ghost use Rattle.federation.specs.Heard.{LinkHeard, said_by};
    ghost use Rattle.federation.specs.MemLink.{heard_one};
    ghost use Rattle.webapi_routes.specs.Printed.{printed};

    ghost Value = { LinkHeard };

    ghost view = { λ q. heard_one q.route.value q.hops (said_by q.answer.value) };

    ghost invariant = { λ q. q.target.items ≡ printed q.route.value };
}

impl LinkQuestion {
    /// A question for a route, and its answer.
    fn new(
        alloc: Global,
        route: &Route,
        hops: u64,
        answer: &LinkAnswer,
    ) -> Result<LinkQuestion, AllocError>
        ensures { IfOk result (λ q. q ≡ heard_one route.now hops (said_by answer.now)) }
    {
        let target = print(alloc, route)?;
        Ok(LinkQuestion {
            target,
            hops,
            route: Snapshot::of(route),
            answer: Snapshot::of(answer),
        })
    }

    /// The target that the route is printed as.
    pub fn target(&self) -> &[u8]
        ensures { result.now ≡ printed self.now.route }
    {
        self.target.as_slice()
    }

    /// How many forwarders it came through.
    pub fn hops(&self) -> u64
        ensures { result ≡ self.now.hops }
    {
        self.hops
    }
}

/// A link in memory: it gives its answers in order, and then fails. It tells what it was asked.
/// Contracts see it as the answers to come, the questions with their answers, and the count of faults.
#[derive(Drop)]
pub struct MemLink {
    script: VecDeque<LinkAnswer>,
    asked: Vec<LinkQuestion>,
    faults: Faults,
}

impl Model for MemLink {
    ghost use Rattle.std.specs.Prelude.{map};
    ghost use Rattle.federation.specs.Heard.{said_by};
    ghost use Rattle.federation.specs.MemLink.{MemLinkFacts};

    ghost Value = { MemLinkFacts };

    ghost view = { λ l. record {
      script = map said_by l.script.items;
      asked = l.asked.items;
      faults = l.faults;
    } };
}

impl MemLink {
    /// A link that gives these answers, in order.
    pub fn new(alloc: Global, answers: Vec<LinkAnswer>) -> MemLink
        ensures { result ≡ record { script = map said_by answers.items; asked = []; faults = 0 } }
    {
        MemLink {
            script: VecDeque::from(answers),
            asked: Vec::new(alloc),
            faults: Faults::new(),
        }
    }

    /// The questions so far, in order.
    pub fn asked(&self) -> &[LinkQuestion]
        ensures { result.now ≡ self.now.asked }
    {
        self.asked.as_slice()
    }

    // What the next answer says, with this question noted before it.
    fn question(&self, alloc: Global, route: &Route, hops: u64) -> Result<LinkQuestion, AllocError>
        ensures { IfOk result (λ q. q ≡ heard_one route.now hops (next_said self.now.script)) }
    {
        match self.script.front() {
            Some(answer) => LinkQuestion::new(alloc, route, hops, answer),
            None => LinkQuestion::new(alloc, route, hops, &LinkAnswer::Failed),
        }
    }

    // Whether the next answer is that memory was refused.
    fn wants_memory(&self) -> bool
        ensures { IsTrue result ↔ (next_said self.now.script ≡ memory) }
    {
        matches!(self.script.front(), Some(LinkAnswer::OutOfMemory))
    }

    // An answer that is given, and counted where it is that the link failed.
    fn counted(&mut self, answer: LinkAnswer) -> LinkAnswer
        ensures answer { result ≡ answer }
        ensures count { self.new ≡ record self.old { faults = count_said (said_by answer) self.old.faults } }
        ensures later { self.old.faults ≤ self.new.faults }
    {
        if matches!(answer, LinkAnswer::Failed) {
            self.faults.raise();
        }
        answer
    }

    // The next answer, of a question that was noted.
    fn give(&mut self) -> LinkAnswer
        ensures gives { GivesScripted self.old (said_by result) self.new self.old.script }
        ensures later { self.old.faults ≤ self.new.faults }
    {
        match self.script.pop_front() {
            Some(answer) => self.counted(answer),
            None => self.counted(LinkAnswer::Failed),
        }
    }

    // Notes a question and gives its answer, unless memory is refused.
    fn answer_to(&mut self, alloc: Global, route: &Route, hops: u64) -> LinkAnswer
        ensures answers { AnswersScript self.old route.now hops (said_by result) self.new }
        ensures later { self.old.faults ≤ self.new.faults }
    {
        if self.wants_memory() {
            return self.give();
        }
        let Ok(question) = self.question(alloc, route, hops) else {
            return LinkAnswer::OutOfMemory;
        };
        if self.asked.push(question).is_err() {
            return LinkAnswer::OutOfMemory;
        }
        self.give()
    }
}

impl Link for MemLink {
    ghost shows = { shown_mem_link };

    fn ask<Rt: Wait + Sync>(
        &mut self,
        _rt: &Rt,
        alloc: Global,
        route: &Route,
        hops: u64,
    ) -> LinkAnswer
        ensures asks { AsksOfLink (shown_mem_link self.old) route.now hops result (shown_mem_link self.new) }
        ensures answers { AnswersScript self.old route.now hops (said_by result) self.new }
    {
        self.answer_to(alloc, route, hops)
    }
}
