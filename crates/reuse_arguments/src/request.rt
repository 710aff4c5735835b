//! The request of a line, made whole: with the texts of a download, a list of files, or the texts of
//! headers.
ghost use Rattle.std.specs.Prelude.{◌≡◌, if◌then◌else◌};
ghost use Rattle.reuse_arguments.specs.Requests.{made_or_seen, with_texts, request_listed, request_with_header_texts};
ghost use Rattle.reuse_arguments.specs.Requests.{command_with_texts, command_listed, command_with_header_texts};
ghost use Rattle.reuse_arguments.specs.Requests.{amendment_with_header_texts, call_with, request_with};
ghost use Rattle.reuse_arguments.specs.FoundParts.{command_with};

use reuse_change::Moment;
use reuse_command::choice::PathList;
use reuse_command::command::{Command, FileAmendment, HeaderRemoval, HeaderTexts};
use reuse_command::licence::{Ids, LicenceTexts};
use reuse_command::request::{Call, Request};

/// To make the call at this moment, or in a dry run what it would do.
pub fn made_or_seen(call: Call, moment: Moment, dry_run: bool) -> Request
    ensures { result ≡ made_or_seen call moment dry_run }
{
    if dry_run {
        Request::Preview(call)
    } else {
        Request::Make(call, moment)
    }
}

/// The call that is to be made or looked at, if it is one.
pub fn call_of(request: &Request) -> Option<&Call> {
    match request {
        Request::Make(call, _) | Request::Preview(call) => Some(call),
        Request::Log | Request::Show(_) | Request::Forget(_) | Request::Recover { .. } => None,
    }
}

/// The ids of the licences that are asked for by a download.
pub fn ids_of(request: &Request) -> Option<&Ids> {
    match call_of(request) {
        Some(Call::Run(Command::Download { ids, texts: _ })) => Some(ids),
        _ => None,
    }
}

/// What files give a request.
#[derive(Drop)]
enum FoundPart {
    /// The texts of a download.
    LicenceTexts(LicenceTexts),
    /// A list of files.
    Listed(PathList),
    /// The texts of headers.
    HeaderTexts(HeaderTexts),
}

/// The request with the texts that were found for a download.
pub fn with_texts(request: Request, texts: LicenceTexts) -> Request
    ensures { result ≡ with_texts texts request }
{
    let mut request = request;
    set_found(&mut request, FoundPart::LicenceTexts(texts));
    request
}

/// Of the files beneath folders the command goes through those of the list alone.
pub fn set_listed(request: &mut Request, listed: PathList)
    ensures { request.new ≡ request_listed listed request.old }
{
    set_found(request, FoundPart::Listed(listed));
}

/// The command adds these texts to headers, or takes them out, if it is one of texts.
pub fn set_header_texts(request: &mut Request, texts: HeaderTexts)
    ensures { request.new ≡ request_with_header_texts texts request.old }
{
    set_found(request, FoundPart::HeaderTexts(texts));
}

// The command of the request gets what was found, if the request has one.
fn set_found(request: &mut Request, found: FoundPart)
    ensures { request.new ≡ request_with (command_with found) request.old }
{
    match request {
        Request::Make(call, _) => set_found_in_call(call, found),
        Request::Preview(call) => set_found_in_call(call, found),
        Request::Log | Request::Show(_) | Request::Forget(_) | Request::Recover { .. } => {
            drop(found);
        }
    }
}

fn set_found_in_call(call: &mut Call, found: FoundPart)
    ensures { call.new ≡ call_with (command_with found) call.old }
{
    match call {
        Call::Run(command) => set_found_in_command(command, found),
        _ => drop(found),
    }
}

fn set_found_in_command(command: &mut Command, found: FoundPart)
    ensures { command.new ≡ command_with found command.old }
{
    match found {
        FoundPart::LicenceTexts(texts) => set_command_licence_texts(command, texts),
        FoundPart::Listed(listed) => set_command_listed(command, listed),
        FoundPart::HeaderTexts(texts) => set_command_header_texts(command, texts),
    }
}

fn set_command_licence_texts(command: &mut Command, texts: LicenceTexts)
    ensures { command.new ≡ command_with_texts texts command.old }
{
    match command {
        Command::Download { texts: none, .. } => *none = texts,
        _ => drop(texts),
    }
}

fn set_command_listed(command: &mut Command, listed: PathList)
    ensures { command.new ≡ command_listed listed command.old }
{
    match command {
        Command::Annotate { scope, .. } => scope.listed = Some(listed),
        Command::Amend { scope, .. } => scope.listed = Some(listed),
        _ => drop(listed),
    }
}

fn set_command_header_texts(command: &mut Command, texts: HeaderTexts)
    ensures { command.new ≡ command_with_header_texts texts command.old }
{
    match command {
        Command::Annotate { additions, .. } => additions.texts = texts,
        Command::Amend { amendment, .. } => set_removed_texts(amendment, texts),
        _ => drop(texts),
    }
}

fn set_removed_texts(amendment: &mut FileAmendment, texts: HeaderTexts)
    ensures { amendment.new ≡ amendment_with_header_texts texts amendment.old }
{
    match amendment {
        FileAmendment::Remove(_, HeaderRemoval::Texts(removed)) => *removed = texts,
        _ => drop(texts),
    }
}
