//! A session answers a request: the one place that says which call it is.
ghost use Rattle.std.specs.Prelude.{◌≡◌, ◌↔◌, true, IfErr, IfOk};
ghost use Rattle.reuse_session.specs.session.Requests.{as_answer};

use crate::session::Session;
use reuse_change::{EntryNumbers, Moment};
use reuse_command::path_outcome::PathOutcomes;
use reuse_command::reply::{Answer, Recovered, Refusal, Response, Reverted, Rows, Shown};
use reuse_command::request::{Call, Request, Steps};
use reuse_store::Store;
use std::alloc::Global;

impl<S: Store + Drop> Session<S> {
    ghost use Rattle.reuse_command.specs.Answer.{DidNotFail, nothing_recovered};
    ghost use Rattle.reuse_journal.specs.Journal.{State};
    ghost use Rattle.reuse_session.specs.session.Requests.{IsAnswered, ReadsOnlyWithCause, Previews};
    ghost use Rattle.reuse_session.specs.session.Session.{store_of, is_broken, SimulatesState};

    /// Answers a request. It is refused as the call is that it asks for.
    pub fn answer(&mut self, alloc: Global, request: &Request) -> Answer
        ensures { IsAnswered S.Store request.now result self.old self.new }
    {
        match request {
            Request::Make(call, when) => self.make(alloc, call, *when),
            Request::Preview(call) => preview_answer(self.preview_call(alloc, call)),
            Request::Forget(steps) => match steps {
                Steps::All => forgotten_answer(self.forget_all(alloc)),
                Steps::Numbers(numbers) => {
                    forgotten_answer(self.forget(alloc, numbers.as_slice()))
                }
            },
            Request::Recover { skip_moved: _ } => recovered_answer(self.recovered(alloc)),
            Request::Log => log_answer(self.log(alloc)),
            Request::Show(number) => shown_answer(self.show(alloc, *number)),
        }
    }

    // Nothing is pending once a session is open.
    fn recovered(&self, alloc: Global) -> Result<Recovered, Refusal>
        ensures broken { (result ≡ Err Refusal.Broken) ↔ (is_broken self.now ≡ true) }
        ensures nothing { IfOk result (λ recovered. recovered ≡ nothing_recovered) }
        ensures refusal { IfErr result (λ refusal. refusal ≡ Refusal.Broken) }
    {
        if self.broken {
            return Err(Refusal::Broken);
        }
        Ok(Recovered::nothing(alloc))
    }

    // Makes a call.
    fn make(&mut self, alloc: Global, call: &Call, when: Moment) -> Answer
        ensures { IsAnswered S.Store (Request.Make call.now when) result self.old self.new }
    {
        match call {
            Call::Run(command) => self.run(alloc, command, when),
            Call::Undo => self.undo(alloc),
            Call::Redo => self.redo(alloc),
            Call::Revert { number, skip_moved } => {
                reverted_answer(self.revert(alloc, *number, *skip_moved, when))
            }
        }
    }

    /// Answers what the call would do, path by path, and changes nothing. If one of the path
    /// outcomes is a refusal, the call would be refused by the first, and else it would be
    /// accepted.
    ///
    /// It is refused as `preview`, `preview_undo` and `preview_redo` are, and for a revert as
    /// `revert_command` is.
    pub fn preview_call(&mut self, alloc: Global, call: &Call) -> Result<PathOutcomes, Refusal>
        ensures broken { (result ≡ Err Refusal.Broken) ↔ (is_broken self.old ≡ true) }
        ensures exact { S.honest (store_of self.new) → (held : State) → SimulatesState S.files self.old held
            → DidNotFail result → Previews call.now held result }
        ensures reads_only { ReadsOnlyWithCause S.Store result self.old self.new }
    {
        match call {
            Call::Run(command) => self.preview(alloc, command),
            Call::Undo => self.preview_undo(alloc),
            Call::Redo => self.preview_redo(alloc),
            Call::Revert { number, skip_moved } => {
                self.preview_revert(alloc, *number, *skip_moved)
            }
        }
    }

    // What taking a step back would do.
    fn preview_revert(
        &mut self,
        alloc: Global,
        number: u32,
        skip_moved: bool,
    ) -> Result<PathOutcomes, Refusal>
        ensures broken { (result ≡ Err Refusal.Broken) ↔ (is_broken self.old ≡ true) }
        ensures exact { S.honest (store_of self.new) → (held : State) → SimulatesState S.files self.old held
            → DidNotFail result → Previews (Call.Revert number skip_moved) held result }
        ensures reads_only { ReadsOnlyWithCause S.Store result self.old self.new }
    {
        match self.revert_command(alloc, number, skip_moved) {
            Ok(command) => {
                let path_outcomes = self.preview(alloc, &command);
                drop(command);
                path_outcomes
            }
            Err(refusal) => Err(refusal),
        }
    }
}

fn preview_answer(answer: Result<PathOutcomes, Refusal>) -> Answer
    ensures { result ≡ as_answer Response.Preview answer }
{
    match answer {
        Ok(path_outcomes) => Ok(Response::Preview(path_outcomes)),
        Err(refusal) => Err(refusal),
    }
}

fn forgotten_answer(answer: Result<EntryNumbers, Refusal>) -> Answer
    ensures { result ≡ as_answer Response.Forgotten answer }
{
    match answer {
        Ok(numbers) => Ok(Response::Forgotten(numbers)),
        Err(refusal) => Err(refusal),
    }
}

/// What a recovery answers, as an answer to a request.
pub fn recovered_answer(answer: Result<Recovered, Refusal>) -> Answer
    ensures { result ≡ as_answer Response.Recovered answer }
{
    match answer {
        Ok(recovered) => Ok(Response::Recovered(recovered)),
        Err(refusal) => Err(refusal),
    }
}

fn log_answer(answer: Result<Rows, Refusal>) -> Answer
    ensures { result ≡ as_answer Response.Log answer }
{
    match answer {
        Ok(rows) => Ok(Response::Log(rows)),
        Err(refusal) => Err(refusal),
    }
}

fn shown_answer(answer: Result<Shown, Refusal>) -> Answer
    ensures { result ≡ as_answer Response.Shown answer }
{
    match answer {
        Ok(shown) => Ok(Response::Shown(shown)),
        Err(refusal) => Err(refusal),
    }
}

fn reverted_answer(answer: Result<Reverted, Refusal>) -> Answer
    ensures { result ≡ as_answer Response.Reverted answer }
{
    match answer {
        Ok(reverted) => Ok(Response::Reverted(reverted)),
        Err(refusal) => Err(refusal),
    }
}
